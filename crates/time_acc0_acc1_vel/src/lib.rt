// position_third_step2.rs, `time_acc0_acc1_vel`: its expressions and attempts, by the Rust's names, in its order.

#![tactic(auto)]

ghost use Rattle.std.specs.Prelude.{◌≡◌};
ghost use Rattle.time_acc0_acc1_vel.specs.TimeAcc0Acc1Vel.{acc0_acc1_vel_uddu_radicand, acc0_acc1_vel_uddu_h1};
ghost use Rattle.time_acc0_acc1_vel.specs.TimeAcc0Acc1Vel.{acc0_acc1_vel_uddu_t1};
ghost use Rattle.time_acc0_acc1_vel.specs.TimeAcc0Acc1Vel.{acc0_acc1_vel_uddu_times, acc0_acc1_vel_udud_t1};
ghost use Rattle.time_acc0_acc1_vel.specs.TimeAcc0Acc1Vel.{acc0_acc1_vel_udud_t3, acc0_acc1_vel_udud_times};
ghost use Rattle.time_acc0_acc1_vel.specs.TimeAcc0Acc1Vel.{acc0_acc1_vel_uddu, acc0_acc1_vel_udud};

use labels::{ControlSigns, ReachedLimits};
use sqrt::{is_mark, sqrt, to_f64};
use step2_solver::{Limits, PositionThirdOrderStep2, Times, Trial, no_trial, times_of, trial_of};

// Profile UDDU, Solution 1

#[tactic(auto, unfolding(crate::specs::TimeAcc0Acc1Vel::acc0_acc1_vel_uddu_radicand))]
fn uddu_radicand(s: PositionThirdOrderStep2, a_max: f64, a_min: f64, j_max: f64) -> f64
    ensures { result ≡ acc0_acc1_vel_uddu_radicand s a_max a_min j_max }
{
    (s.a0_p4 + s.af_p4
        - 4.0 * s.a0_p3 * (2.0 * a_max + a_min) / 3.0
        - 4.0 * s.af_p3 * (a_max + 2.0 * a_min) / 3.0
        + 2.0 * (s.a0_a0 - s.af_af) * a_max * a_max
        + (4.0 * s.a0 * a_max - 2.0 * s.a0_a0)
            * (s.af_af - 2.0 * s.af * a_min
                + (a_min - a_max) * a_min
                + 2.0 * j_max * (a_min * s.tf - s.vd))
        + 2.0 * s.af_af * (a_min * a_min + 2.0 * j_max * (a_max * s.tf - s.vd))
        + 4.0
            * j_max
            * (2.0 * a_min * (s.af * s.vd + j_max * s.g1)
                + (a_max * a_max - a_min * a_min) * s.vd
                + j_max * s.vd_vd)
        + 8.0 * a_max * s.j_max_j_max * (s.pd - s.tf * s.vf))
        / (a_max * a_min)
        + 4.0 * s.af_af
        + 2.0 * s.a0_a0
        + (4.0 * s.af + a_max - a_min) * (a_max - a_min)
        + 4.0 * j_max * (a_min - a_max + j_max * s.tf - 2.0 * s.af) * s.tf
}

#[tactic(auto, unfolding(crate::specs::TimeAcc0Acc1Vel::acc0_acc1_vel_uddu_h1))]
fn uddu_h1(j_max: f64, root: f64) -> f64
    ensures { result ≡ acc0_acc1_vel_uddu_h1 j_max root }
{
    root * float::abs(j_max) / j_max
}

#[tactic(auto, unfolding(crate::specs::TimeAcc0Acc1Vel::acc0_acc1_vel_uddu_t1))]
fn uddu_t1(s: PositionThirdOrderStep2, a_max: f64, a_min: f64, j_max: f64, h1: f64) -> f64
    ensures { result ≡ acc0_acc1_vel_uddu_t1 s a_max a_min j_max h1 }
{
    (-(s.af_af - s.a0_a0
        + 2.0 * a_max * a_max
        + a_min * (a_min - 2.0 * s.ad - 3.0 * a_max)
        + 2.0 * j_max * (a_min * s.tf - s.vd))
        + a_min * h1)
        / (2.0 * (a_max - a_min) * j_max)
}

#[tactic(auto, unfolding(crate::specs::TimeAcc0Acc1Vel::acc0_acc1_vel_uddu_times))]
fn uddu_times(
    s: PositionThirdOrderStep2,
    a_max: f64,
    a_min: f64,
    j_max: f64,
    h1: f64,
    t1: f64,
) -> Times
    ensures { result ≡ acc0_acc1_vel_uddu_times s a_max a_min j_max h1 t1 }
{
    let t0 = (-s.a0 + a_max) / j_max;
    let t2 = a_max / j_max;
    let t3 = (a_min - a_max + h1) / (2.0 * j_max);
    let t4 = -a_min / j_max;
    let t5 = s.tf - (t0 + t1 + t2 + t3 + 2.0 * t4 + s.af / j_max);
    let t6 = t4 + s.af / j_max;
    times_of(t0, t1, t2, t3, t4, t5, t6)
}

pub fn uddu(s: PositionThirdOrderStep2, l: Limits) -> Trial
    ensures { result ≡ acc0_acc1_vel_uddu s l }
{
    if (2.0 * (l.a_max - l.a_min) + s.ad) / l.j_max < s.tf {
        let root = sqrt(uddu_radicand(s, l.a_max, l.a_min, l.j_max));
        let h1 = uddu_h1(l.j_max, to_f64(root));
        let t1 = uddu_t1(s, l.a_max, l.a_min, l.j_max, h1);
        let times = uddu_times(s, l.a_max, l.a_min, l.j_max, h1, t1);
        trial_of(
            is_mark(root),
            times,
            ControlSigns::UDDU,
            ReachedLimits::Acc0Acc1Vel,
            l.j_max,
        )
    } else {
        no_trial()
    }
}

// Profile UDUD

#[tactic(auto, unfolding(crate::specs::TimeAcc0Acc1Vel::acc0_acc1_vel_udud_t1))]
fn udud_t1(s: PositionThirdOrderStep2, a_max: f64, j_max: f64) -> f64
    ensures { result ≡ acc0_acc1_vel_udud_t1 s a_max j_max }
{
    (3.0 * (s.a0_p4 + s.af_p4) - 4.0 * (s.a0_p3 + s.af_p3) * a_max - 4.0 * s.af_p3 * a_max
        + 24.0 * (s.a0 + s.af) * a_max * a_max * a_max
        - 6.0 * (s.af_af + s.a0_a0) * (a_max * a_max - 2.0 * j_max * s.vd)
        + 6.0 * s.a0_a0 * (s.af_af - 2.0 * s.af * a_max - 2.0 * a_max * j_max * s.tf)
        - 12.0 * a_max * a_max * (2.0 * a_max * a_max - 2.0 * a_max * j_max * s.tf + j_max * s.vd)
        - 24.0 * s.af * a_max * j_max * s.vd
        + 12.0 * s.j_max_j_max * (2.0 * a_max * s.g1 + s.vd_vd))
        / (12.0
            * a_max
            * j_max
            * (s.a0_a0 + s.af_af - 2.0 * (s.a0 + s.af) * a_max
                + 2.0 * (a_max * a_max - a_max * j_max * s.tf + j_max * s.vd)))
}

#[tactic(auto, unfolding(crate::specs::TimeAcc0Acc1Vel::acc0_acc1_vel_udud_t3))]
fn udud_t3(s: PositionThirdOrderStep2, a_max: f64, j_max: f64) -> f64
    ensures { result ≡ acc0_acc1_vel_udud_t3 s a_max j_max }
{
    (-s.a0_a0 - s.af_af + 2.0 * a_max * (s.a0 + s.af - 2.0 * a_max) - 2.0 * j_max * s.vd)
        / (2.0 * a_max * j_max)
        + s.tf
}

#[tactic(auto, unfolding(crate::specs::TimeAcc0Acc1Vel::acc0_acc1_vel_udud_times))]
fn udud_times(s: PositionThirdOrderStep2, a_max: f64, j_max: f64, t1: f64, t3: f64) -> Times
    ensures { result ≡ acc0_acc1_vel_udud_times s a_max j_max t1 t3 }
{
    let t0 = (-s.a0 + a_max) / j_max;
    let t2 = a_max / j_max;
    let t4 = t2;
    let t5 = s.tf - (t0 + t1 + t2 + t3 + 2.0 * t4 - s.af / j_max);
    let t6 = t4 - s.af / j_max;
    times_of(t0, t1, t2, t3, t4, t5, t6)
}

pub fn udud(s: PositionThirdOrderStep2, l: Limits) -> Trial
    ensures { result ≡ acc0_acc1_vel_udud s l }
{
    if (-s.a0 + 4.0 * l.a_max - s.af) / l.j_max < s.tf {
        let t1 = udud_t1(s, l.a_max, l.j_max);
        let t3 = udud_t3(s, l.a_max, l.j_max);
        let times = udud_times(s, l.a_max, l.j_max, t1, t3);
        trial_of(
            false,
            times,
            ControlSigns::UDUD,
            ReachedLimits::Acc0Acc1Vel,
            l.j_max,
        )
    } else {
        no_trial()
    }
}
