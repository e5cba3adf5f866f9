// position_third_step2.rs, `time_acc0_acc1`: its expressions and attempts, by the Rust's names, in its order.
// Document 02's kind 08 is the same with another t[1] from rest to rest, and shares all else.
#![tactic(auto)]

mod rest_to_rest;

ghost use Rattle.std.specs.Prelude.{◌≡◌, cond};
ghost use Rattle.time_acc0_acc1.specs.TimeAcc0Acc1.{acc0_acc1_rest_applies, acc0_acc1_rest_h1, acc0_acc1_rest_h2};
ghost use Rattle.time_acc0_acc1.specs.TimeAcc0Acc1.{acc0_acc1_rest_t1, acc0_acc1_rest_times, acc0_acc1_uddu_radicand};
ghost use Rattle.time_acc0_acc1.specs.TimeAcc0Acc1.{acc0_acc1_uddu_jf, acc0_acc1_uddu_t1, acc0_acc1_uddu_times};
ghost use Rattle.time_acc0_acc1.specs.TimeAcc0Acc1.{acc0_acc1_rest, acc0_acc1_uddu};
ghost use Rattle.time_acc0_acc1.specs.RestToRest.{rest_to_rest_t1, rest_to_rest_trial, acc0_acc1_by};

use labels::{ControlSigns, ReachedLimits};
use sqrt::{is_mark, sqrt, to_f64};
use step2_solver::{Limits, PositionThirdOrderStep2, Times, Trial, times_of, trial_of};

// Both end accelerations below EPS in size: the rest formula, and no other attempt

#[tactic(auto, unfolding(crate::specs::TimeAcc0Acc1::acc0_acc1_rest_applies))]
fn rest_applies(s: PositionThirdOrderStep2) -> bool
    ensures { result ≡ acc0_acc1_rest_applies s }
{
    (float::abs(s.a0) < f64::EPSILON) & (float::abs(s.af) < f64::EPSILON)
}

#[tactic(auto, unfolding(crate::specs::TimeAcc0Acc1::acc0_acc1_rest_h1))]
fn rest_h1(s: PositionThirdOrderStep2, a_max: f64, a_min: f64) -> f64
    ensures { result ≡ acc0_acc1_rest_h1 s a_max a_min }
{
    2.0 * a_min * s.g1 + s.vd_vd + a_max * (2.0 * s.pd + a_min * s.tf_tf - 2.0 * s.tf * s.vf)
}

#[tactic(auto, unfolding(crate::specs::TimeAcc0Acc1::acc0_acc1_rest_h2))]
fn rest_h2(s: PositionThirdOrderStep2, a_max: f64, a_min: f64) -> f64
    ensures { result ≡ acc0_acc1_rest_h2 s a_max a_min }
{
    (a_max - a_min) * (-a_min * s.vd + a_max * (a_min * s.tf - s.vd))
}

#[tactic(auto, unfolding(crate::specs::TimeAcc0Acc1::acc0_acc1_rest_t1))]
fn rest_t1(s: PositionThirdOrderStep2, a_max: f64, a_min: f64, h1: f64, h2: f64) -> f64
    ensures { result ≡ acc0_acc1_rest_t1 s a_max a_min h1 h2 }
{
    (-2.0 * a_max * h1 + a_min * a_min * s.g2) / h2
}

#[tactic(auto, unfolding(crate::specs::TimeAcc0Acc1::acc0_acc1_rest_times))]
fn rest_times(s: PositionThirdOrderStep2, a_max: f64, a_min: f64, jf: f64, t1: f64) -> Times
    ensures { result ≡ acc0_acc1_rest_times s a_max a_min jf t1 }
{
    let t0 = a_max / jf;
    let t2 = t0;
    let t3 = 0.0;
    let t4 = -a_min / jf;
    let t5 = s.tf - (2.0 * t0 + t1 + 2.0 * t4);
    let t6 = t4;
    times_of(t0, t1, t2, t3, t4, t5, t6)
}

// From rest to rest it is document 02's, for the same jerk.
fn chosen_t1(
    rest_to_rest: bool,
    s: PositionThirdOrderStep2,
    a_max: f64,
    a_min: f64,
    h1: f64,
    h2: f64,
    jf: f64,
) -> f64
    ensures { result ≡ cond rest_to_rest (rest_to_rest_t1 s a_max a_min jf)
        (acc0_acc1_rest_t1 s a_max a_min h1 h2) }
{
    if rest_to_rest {
        rest_to_rest::t1(s, a_max, a_min, jf)
    } else {
        rest_t1(s, a_max, a_min, h1, h2)
    }
}

fn rest(rest_to_rest: bool, s: PositionThirdOrderStep2, l: Limits) -> Trial
    ensures { result ≡ cond rest_to_rest (rest_to_rest_trial s l) (acc0_acc1_rest s l) }
{
    let h1 = rest_h1(s, l.a_max, l.a_min);
    let h2 = rest_h2(s, l.a_max, l.a_min);
    let jf = h2 / h1;
    let t1 = chosen_t1(rest_to_rest, s, l.a_max, l.a_min, h1, h2, jf);
    let times = rest_times(s, l.a_max, l.a_min, jf, t1);
    trial_of(
        false,
        times,
        ControlSigns::UDDU,
        ReachedLimits::Acc0Acc1,
        jf,
    )
}

// UDDU

// v is what the Rust hands to `pow2`.
#[tactic(auto, unfolding(crate::specs::TimeAcc0Acc1::acc0_acc1_uddu_radicand))]
fn uddu_radicand(s: PositionThirdOrderStep2, a_max: f64, a_min: f64) -> f64
    ensures { result ≡ acc0_acc1_uddu_radicand s a_max a_min }
{
    let v = (a_max - a_min) * (-a_min * s.vd + a_max * (a_min * s.tf - s.vd))
        - s.af_af * (a_max * s.tf - s.vd)
        + 2.0 * s.af * a_min * (a_max * s.tf - s.vd)
        + s.a0_a0 * (a_min * s.tf + s.v0 - s.vf)
        - 2.0 * s.a0 * a_max * (a_min * s.tf - s.vd);
    144.0 * (v * v)
        + 48.0
            * s.ad
            * (3.0 * s.a0_p3 - 3.0 * s.af_p3
                + 12.0 * a_max * a_min * (-a_max + a_min)
                + 4.0 * s.af_af * (a_max + 2.0 * a_min)
                + s.a0
                    * (-3.0 * s.af_af
                        + 8.0 * s.af * (a_min - a_max)
                        + 6.0 * (a_max * a_max + 2.0 * a_max * a_min - a_min * a_min))
                + 6.0 * s.af * (a_max * a_max - 2.0 * a_max * a_min - a_min * a_min)
                + s.a0_a0 * (3.0 * s.af - 4.0 * (2.0 * a_max + a_min)))
            * (2.0 * a_min * s.g1
                + s.vd * s.vd
                + a_max * (2.0 * s.pd + a_min * s.tf * s.tf - 2.0 * s.tf * s.vf))
}

#[tactic(auto, unfolding(crate::specs::TimeAcc0Acc1::acc0_acc1_uddu_jf))]
fn uddu_jf(s: PositionThirdOrderStep2, a_max: f64, a_min: f64, h1: f64) -> f64
    ensures { result ≡ acc0_acc1_uddu_jf s a_max a_min h1 }
{
    -(3.0 * s.af_af * a_max * s.tf
        - 3.0 * s.a0_a0 * a_min * s.tf
        - 6.0 * s.ad * a_max * a_min * s.tf
        + 3.0 * a_max * a_min * (a_min - a_max) * s.tf
        + 3.0 * (s.a0_a0 - s.af_af) * s.vd
        + 6.0 * s.vd * (s.af * a_min - s.a0 * a_max)
        + 3.0 * (a_max * a_max - a_min * a_min) * s.vd
        + h1 / 4.0)
        / (6.0
            * (2.0 * a_min * s.g1
                + s.vd * s.vd
                + a_max * (2.0 * s.pd + a_min * s.tf_tf - 2.0 * s.tf * s.vf)))
}

#[tactic(auto, unfolding(crate::specs::TimeAcc0Acc1::acc0_acc1_uddu_t1))]
fn uddu_t1(s: PositionThirdOrderStep2, a_max: f64, a_min: f64, jf: f64) -> f64
    ensures { result ≡ acc0_acc1_uddu_t1 s a_max a_min jf }
{
    (s.a0_a0 - s.af_af + 2.0 * s.ad * a_min
        - 2.0
            * (a_max * a_max - 2.0 * a_max * a_min + a_min * a_min + a_min * jf * s.tf - jf * s.vd))
        / (2.0 * (a_max - a_min) * jf)
}

#[tactic(auto, unfolding(crate::specs::TimeAcc0Acc1::acc0_acc1_uddu_times))]
fn uddu_times(s: PositionThirdOrderStep2, a_max: f64, a_min: f64, jf: f64, t1: f64) -> Times
    ensures { result ≡ acc0_acc1_uddu_times s a_max a_min jf t1 }
{
    let t0 = (a_max - s.a0) / jf;
    let t2 = a_max / jf;
    let t3 = 0.0;
    let t4 = -a_min / jf;
    let t5 = s.tf - (t0 + t1 + t2 + 2.0 * t4 + s.af / jf);
    let t6 = t4 + s.af / jf;
    times_of(t0, t1, t2, t3, t4, t5, t6)
}

#[tactic(auto, unfolding(crate::specs::TimeAcc0Acc1::acc0_acc1_uddu))]
fn uddu(s: PositionThirdOrderStep2, l: Limits) -> Trial
    ensures { result ≡ acc0_acc1_uddu s l }
{
    let root = sqrt(uddu_radicand(s, l.a_max, l.a_min));
    let h1 = to_f64(root);
    let jf = uddu_jf(s, l.a_max, l.a_min, h1);
    let t1 = uddu_t1(s, l.a_max, l.a_min, jf);
    let times = uddu_times(s, l.a_max, l.a_min, jf, t1);
    trial_of(
        is_mark(root),
        times,
        ControlSigns::UDDU,
        ReachedLimits::Acc0Acc1,
        jf,
    )
}

// The one attempt that is made: the Rust's, or kind 08's.
// Stays: a bool that says which t[1], here, in what this calls and in its caller: with an arm, an attempt and a
// function of its own for each, which a closure for t[1] comes to, kinds 03, 04, 13 and 14 took 1.04 to 1.05 of the
// time (docs/DECISIONS.md, 'Shapes').
pub fn attempt(rest_to_rest: bool, s: PositionThirdOrderStep2, l: Limits) -> Trial
    ensures { result ≡ acc0_acc1_by rest_to_rest s l }
{
    if rest_applies(s) {
        rest(rest_to_rest, s, l)
    } else {
        uddu(s, l)
    }
}
