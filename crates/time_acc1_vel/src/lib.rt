// position_third_step2.rs, `time_acc1_vel`: its expressions and attempts, by the Rust's names, in its order.
// t is a root of the quartic.

#![tactic(auto)]

ghost use Rattle.std.specs.Prelude.{◌≡◌};
ghost use Rattle.time_acc1_vel.specs.TimeAcc1Vel.{acc1_vel_uddu_orig, acc1_vel_uddu_deriv, acc1_vel_uddu_newton};
ghost use Rattle.time_acc1_vel.specs.TimeAcc1Vel.{acc1_vel_uddu_h1, acc1_vel_uddu_times, acc1_vel_uddu};
ghost use Rattle.time_acc1_vel.specs.TimeAcc1Vel.{acc1_vel_udud_h1, acc1_vel_udud_times, acc1_vel_udud};

use labels::{ControlSigns, ReachedLimits};
use step2_solver::{
    Limits, PositionThirdOrderStep2, Times, Trial, Window, no_trial, outside, times_of, trial_of,
};

// The bound of the Newton step, 2^-48.
const EPSILON_16: f64 = 16.0 * f64::EPSILON;

// Profile UDDU

#[tactic(auto, unfolding(crate::specs::TimeAcc1Vel::acc1_vel_uddu_orig))]
fn uddu_orig(s: PositionThirdOrderStep2, a_min: f64, j_max: f64, t: f64, h0: f64) -> f64
    ensures { result ≡ acc1_vel_uddu_orig s a_min j_max t h0 }
{
    -s.pd
        + (3.0 * (s.a0_p4 + s.af_p4) - 8.0 * s.af_p3 * a_min - 4.0 * s.a0_p3 * a_min
            + 6.0 * s.af_af * (a_min * a_min + 2.0 * j_max * (h0 - s.vd))
            + 6.0
                * s.a0_a0
                * (s.af_af - 2.0 * s.af * a_min
                    + a_min * a_min
                    + 2.0 * a_min * j_max * (-2.0 * t + s.tf)
                    + 2.0 * j_max * (5.0 * h0 - s.vd))
            + 24.0
                * s.a0
                * j_max
                * t
                * (s.a0_a0 + s.af_af - 2.0 * s.af * a_min
                    + a_min * a_min
                    + 2.0 * j_max * (a_min * (-t + s.tf) + h0 - s.vd))
            - 24.0 * s.af * a_min * j_max * (h0 - s.vd)
            + 12.0 * j_max * (a_min * a_min * (h0 - s.vd) + j_max * (h0 - s.vd) * (h0 - s.vd)))
            / (24.0 * a_min * s.j_max_j_max)
        + h0 * (s.tf - t)
        + s.tf * s.v0
}

#[tactic(auto, unfolding(crate::specs::TimeAcc1Vel::acc1_vel_uddu_deriv))]
fn uddu_deriv(s: PositionThirdOrderStep2, a_min: f64, j_max: f64, t: f64, h0: f64) -> f64
    ensures { result ≡ acc1_vel_uddu_deriv s a_min j_max t h0 }
{
    (s.a0 + j_max * t)
        * ((s.a0_a0 + s.af_af) / (a_min * j_max)
            + (a_min - s.a0 - 2.0 * s.af) / j_max
            + (4.0 * s.a0 * t + 2.0 * h0 - 2.0 * s.vd) / a_min
            + 2.0 * s.tf
            - 3.0 * t)
}

// Single Newton step (regarding pd).
#[tactic(auto, unfolding(crate::specs::TimeAcc1Vel::acc1_vel_uddu_newton))]
fn uddu_newton(s: PositionThirdOrderStep2, a_min: f64, j_max: f64, t: f64) -> f64
    ensures { result ≡ acc1_vel_uddu_newton s a_min j_max t }
{
    if float::abs(s.a0 + j_max * t) > EPSILON_16 {
        let h0 = j_max * t * t;
        t - uddu_orig(s, a_min, j_max, t, h0) / uddu_deriv(s, a_min, j_max, t, h0)
    } else {
        t
    }
}

#[tactic(auto, unfolding(crate::specs::TimeAcc1Vel::acc1_vel_uddu_h1))]
fn uddu_h1(s: PositionThirdOrderStep2, a_min: f64, j_max: f64, t: f64) -> f64
    ensures { result ≡ acc1_vel_uddu_h1 s a_min j_max t }
{
    -((s.a0_a0 + s.af_af) / 2.0 + j_max * (-s.vd + 2.0 * s.a0 * t + j_max * t * t)) / a_min
}

#[tactic(auto, unfolding(crate::specs::TimeAcc1Vel::acc1_vel_uddu_times))]
fn uddu_times(s: PositionThirdOrderStep2, a_min: f64, j_max: f64, t: f64, h1: f64) -> Times
    ensures { result ≡ acc1_vel_uddu_times s a_min j_max t h1 }
{
    let t0 = t;
    let t1 = 0.0;
    let t2 = s.a0 / j_max + t;
    let t3 = s.tf - (h1 - a_min + s.a0 + s.af) / j_max - 2.0 * t;
    let t4 = -a_min / j_max;
    let t5 = (h1 + a_min) / j_max;
    let t6 = t4 + s.af / j_max;
    times_of(t0, t1, t2, t3, t4, t5, t6)
}

// One root.
// Stays: two functions, this and `udud`, since each step has a formula of its own, by the Rust's name: a generic one
// would be handed each of them.
#[tactic(auto, unfolding(crate::specs::TimeAcc1Vel::acc1_vel_uddu))]
pub fn uddu(s: PositionThirdOrderStep2, l: Limits, w: Window, root: f64) -> Trial
    ensures { result ≡ acc1_vel_uddu s l w root }
{
    if outside(w, root) {
        return no_trial();
    }
    let t = uddu_newton(s, l.a_min, l.j_max, root);
    let h1 = uddu_h1(s, l.a_min, l.j_max, t);
    let times = uddu_times(s, l.a_min, l.j_max, t, h1);
    trial_of(
        false, // a root of the quartic gives no mark
        times,
        ControlSigns::UDDU,
        ReachedLimits::Acc1Vel,
        l.j_max,
    )
}

// Profile UDUD

#[tactic(auto, unfolding(crate::specs::TimeAcc1Vel::acc1_vel_udud_h1))]
fn udud_h1(s: PositionThirdOrderStep2, a_max: f64, j_max: f64, t: f64) -> f64
    ensures { result ≡ acc1_vel_udud_h1 s a_max j_max t }
{
    ((s.a0_a0 - s.af_af) / 2.0 + s.j_max_j_max * t * t - j_max * (s.vd - 2.0 * s.a0 * t)) / a_max
}

#[tactic(auto, unfolding(crate::specs::TimeAcc1Vel::acc1_vel_udud_times))]
fn udud_times(s: PositionThirdOrderStep2, a_max: f64, j_max: f64, t: f64, h1: f64) -> Times
    ensures { result ≡ acc1_vel_udud_times s a_max j_max t h1 }
{
    let t0 = t;
    let t1 = 0.0;
    let t2 = t + s.a0 / j_max;
    let t3 = s.tf + (h1 + s.ad - a_max) / j_max - 2.0 * t;
    let t4 = a_max / j_max;
    let t5 = -(h1 + a_max) / j_max;
    let t6 = t4 - s.af / j_max;
    times_of(t0, t1, t2, t3, t4, t5, t6)
}

// One root.
#[tactic(auto, unfolding(crate::specs::TimeAcc1Vel::acc1_vel_udud))]
pub fn udud(s: PositionThirdOrderStep2, l: Limits, w: Window, root: f64) -> Trial
    ensures { result ≡ acc1_vel_udud s l w root }
{
    if outside(w, root) {
        return no_trial();
    }
    let h1 = udud_h1(s, l.a_max, l.j_max, root);
    let times = udud_times(s, l.a_max, l.j_max, root, h1);
    trial_of(
        false,
        times,
        ControlSigns::UDUD,
        ReachedLimits::Acc1Vel,
        l.j_max,
    )
}
