// position_third_step2.rs, `time_acc0_vel`: its expressions and attempts, by the Rust's names, in its order.
// t is a root of the quartic.

#![tactic(auto)]

ghost use Rattle.std.specs.Prelude.{◌≡◌};
ghost use Rattle.time_acc0_vel.specs.TimeAcc0Vel.{acc0_vel_uddu_orig, acc0_vel_uddu_deriv, acc0_vel_uddu_newton};
ghost use Rattle.time_acc0_vel.specs.TimeAcc0Vel.{acc0_vel_uddu_h1, acc0_vel_uddu_times, acc0_vel_uddu};
ghost use Rattle.time_acc0_vel.specs.TimeAcc0Vel.{acc0_vel_udud_orig, acc0_vel_udud_deriv, acc0_vel_udud_newton};
ghost use Rattle.time_acc0_vel.specs.TimeAcc0Vel.{acc0_vel_udud_h1, acc0_vel_udud_times, acc0_vel_udud};

use labels::{ControlSigns, ReachedLimits};
use step2_solver::{
    Limits, PositionThirdOrderStep2, Times, Trial, Window, no_trial, outside, times_of, trial_of,
};

// Profile UDDU

#[tactic(auto, unfolding(crate::specs::TimeAcc0Vel::acc0_vel_uddu_orig))]
fn uddu_orig(s: PositionThirdOrderStep2, a_max: f64, j_max: f64, t: f64, h1: f64) -> f64
    ensures { result ≡ acc0_vel_uddu_orig s a_max j_max t h1 }
{
    (-3.0 * (s.a0_p4 + s.af_p4) + 4.0 * (s.af_p3 + 2.0 * s.a0_p3) * a_max
        - 24.0 * s.af * a_max * s.j_max_j_max * t * t
        - 12.0 * s.a0 * a_max * (s.af_af - 2.0 * j_max * h1)
        + 6.0 * s.a0_a0 * (s.af_af - a_max * a_max - 2.0 * j_max * h1)
        + 6.0 * s.af_af * (a_max * a_max - 2.0 * a_max * j_max * s.tf + 2.0 * j_max * h1)
        - 12.0
            * j_max
            * (a_max * a_max * h1
                + j_max * h1 * h1
                + 2.0 * a_max * j_max * (s.pd + j_max * t * t * (t - s.tf) - s.tf * s.vf)))
        / (24.0 * a_max * s.j_max_j_max)
}

#[tactic(auto, unfolding(crate::specs::TimeAcc0Vel::acc0_vel_uddu_deriv))]
fn uddu_deriv(s: PositionThirdOrderStep2, a_max: f64, j_max: f64, t: f64, h1: f64) -> f64
    ensures { result ≡ acc0_vel_uddu_deriv s a_max j_max t h1 }
{
    -t * (s.a0_a0 - s.af_af
        + 2.0 * a_max * (s.ad - j_max * s.tf)
        + a_max * a_max
        + 3.0 * a_max * j_max * t
        + 2.0 * j_max * h1)
        / a_max
}

// Single Newton step (regarding pd).
#[tactic(auto, unfolding(crate::specs::TimeAcc0Vel::acc0_vel_uddu_newton))]
fn uddu_newton(s: PositionThirdOrderStep2, a_max: f64, j_max: f64, t: f64) -> f64
    ensures { result ≡ acc0_vel_uddu_newton s a_max j_max t }
{
    if t > f64::EPSILON {
        let h1 = j_max * t * t + s.vd;
        t - uddu_orig(s, a_max, j_max, t, h1) / uddu_deriv(s, a_max, j_max, t, h1)
    } else {
        t
    }
}

#[tactic(auto, unfolding(crate::specs::TimeAcc0Vel::acc0_vel_uddu_h1))]
fn uddu_h1(s: PositionThirdOrderStep2, a_max: f64, j_max: f64, t: f64) -> f64
    ensures { result ≡ acc0_vel_uddu_h1 s a_max j_max t }
{
    ((s.a0_a0 - s.af_af) / 2.0 + j_max * (j_max * t * t + s.vd)) / a_max
}

#[tactic(auto, unfolding(crate::specs::TimeAcc0Vel::acc0_vel_uddu_times))]
fn uddu_times(s: PositionThirdOrderStep2, a_max: f64, j_max: f64, t: f64, h1: f64) -> Times
    ensures { result ≡ acc0_vel_uddu_times s a_max j_max t h1 }
{
    let t0 = (-s.a0 + a_max) / j_max;
    let t1 = (h1 - a_max) / j_max;
    let t2 = a_max / j_max;
    let t3 = s.tf - (h1 + s.ad + a_max) / j_max - 2.0 * t;
    let t4 = t;
    let t5 = 0.0;
    let t6 = s.af / j_max + t;
    times_of(t0, t1, t2, t3, t4, t5, t6)
}

// One root.
// Stays: two functions, this and `udud`, since each step has a formula of its own, by the Rust's name: a generic one
// would be handed each of them.
#[tactic(auto, unfolding(crate::specs::TimeAcc0Vel::acc0_vel_uddu))]
pub fn uddu(s: PositionThirdOrderStep2, l: Limits, w: Window, root: f64) -> Trial
    ensures { result ≡ acc0_vel_uddu s l w root }
{
    if outside(w, root) {
        return no_trial();
    }
    let t = uddu_newton(s, l.a_max, l.j_max, root);
    let h1 = uddu_h1(s, l.a_max, l.j_max, t);
    let times = uddu_times(s, l.a_max, l.j_max, t, h1);
    trial_of(
        false,
        times,
        ControlSigns::UDDU,
        ReachedLimits::Acc0Vel,
        l.j_max,
    )
}

// Profile UDUD

#[tactic(auto, unfolding(crate::specs::TimeAcc0Vel::acc0_vel_udud_orig))]
fn udud_orig(s: PositionThirdOrderStep2, a_max: f64, j_max: f64, t: f64, h1: f64) -> f64
    ensures { result ≡ acc0_vel_udud_orig s a_max j_max t h1 }
{
    -(3.0 * (s.a0_p4 + s.af_p4) - 4.0 * (2.0 * s.a0_p3 + s.af_p3) * a_max
        + 24.0 * s.af * a_max * s.j_max_j_max * t * t
        - 12.0 * s.a0 * a_max * (s.af_af - 2.0 * j_max * h1)
        + 6.0 * s.a0_a0 * (s.af_af + a_max * a_max - 2.0 * j_max * h1)
        + 6.0 * s.af_af * (a_max * a_max - 2.0 * j_max * (s.tf * a_max + h1))
        + 12.0
            * j_max
            * (-a_max * a_max * h1 + j_max * h1 * h1
                - 2.0 * a_max * j_max * (-s.pd + j_max * t * t * (t - s.tf) + s.tf * s.vf)))
        / (24.0 * a_max * s.j_max_j_max)
}

#[tactic(auto, unfolding(crate::specs::TimeAcc0Vel::acc0_vel_udud_deriv))]
fn udud_deriv(s: PositionThirdOrderStep2, a_max: f64, j_max: f64, t: f64, h1: f64) -> f64
    ensures { result ≡ acc0_vel_udud_deriv s a_max j_max t h1 }
{
    t * (s.a0_a0 + s.af_af - 2.0 * j_max * h1 - 2.0 * (s.a0 + s.af + j_max * s.tf) * a_max
        + a_max * a_max
        + 3.0 * a_max * j_max * t)
        / a_max
}

// Single Newton step (regarding pd).
#[tactic(auto, unfolding(crate::specs::TimeAcc0Vel::acc0_vel_udud_newton))]
fn udud_newton(s: PositionThirdOrderStep2, a_max: f64, j_max: f64, t: f64) -> f64
    ensures { result ≡ acc0_vel_udud_newton s a_max j_max t }
{
    let h1 = j_max * t * t - s.vd;
    t - udud_orig(s, a_max, j_max, t, h1) / udud_deriv(s, a_max, j_max, t, h1)
}

#[tactic(auto, unfolding(crate::specs::TimeAcc0Vel::acc0_vel_udud_h1))]
fn udud_h1(s: PositionThirdOrderStep2, a_max: f64, j_max: f64, t: f64) -> f64
    ensures { result ≡ acc0_vel_udud_h1 s a_max j_max t }
{
    ((s.a0_a0 + s.af_af) / 2.0 + j_max * (s.vd - j_max * t * t)) / a_max
}

#[tactic(auto, unfolding(crate::specs::TimeAcc0Vel::acc0_vel_udud_times))]
fn udud_times(s: PositionThirdOrderStep2, a_max: f64, j_max: f64, t: f64, h1: f64) -> Times
    ensures { result ≡ acc0_vel_udud_times s a_max j_max t h1 }
{
    let t0 = (-s.a0 + a_max) / j_max;
    let t1 = (h1 - a_max) / j_max;
    let t2 = a_max / j_max;
    let t3 = s.tf - (h1 - s.a0 - s.af + a_max) / j_max - 2.0 * t;
    let t4 = t;
    let t5 = 0.0;
    let t6 = -(s.af / j_max) + t;
    times_of(t0, t1, t2, t3, t4, t5, t6)
}

// One root.
#[tactic(auto, unfolding(crate::specs::TimeAcc0Vel::acc0_vel_udud))]
pub fn udud(s: PositionThirdOrderStep2, l: Limits, w: Window, root: f64) -> Trial
    ensures { result ≡ acc0_vel_udud s l w root }
{
    if outside(w, root) {
        return no_trial();
    }
    let t = udud_newton(s, l.a_max, l.j_max, root);
    let h1 = udud_h1(s, l.a_max, l.j_max, t);
    let times = udud_times(s, l.a_max, l.j_max, t, h1);
    trial_of(
        false,
        times,
        ControlSigns::UDUD,
        ReachedLimits::Acc0Vel,
        l.j_max,
    )
}
