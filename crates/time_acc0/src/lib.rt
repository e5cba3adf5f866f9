// position_third_step2.rs, `time_acc0`: its expressions and attempts, by the Rust's names, in its order.

#![tactic(auto)]

ghost use Rattle.std.specs.Prelude.{◌≡◌};
ghost use Rattle.time_acc0.specs.TimeAcc0.{acc0_first_radicand, acc0_first_times, acc0_first, acc0_second_h0a};
ghost use Rattle.time_acc0.specs.TimeAcc0.{acc0_second_h0b, acc0_second_radicand, acc0_second_h0, acc0_second_t1};
ghost use Rattle.time_acc0.specs.TimeAcc0.{acc0_second_times, acc0_second, acc0_third_h0a, acc0_third_h0b};
ghost use Rattle.time_acc0.specs.TimeAcc0.{acc0_third_radicand, acc0_third_h1, acc0_third_times, acc0_third};

use labels::{ControlSigns, ReachedLimits};
use sqrt::{is_mark, sqrt, to_f64};
use step2_solver::{Limits, PositionThirdOrderStep2, Times, Trial, times_of, trial_of};

// First attempt: UDUD

#[tactic(auto, unfolding(crate::specs::TimeAcc0::acc0_first_radicand))]
fn first_radicand(s: PositionThirdOrderStep2, a_max: f64, j_max: f64) -> f64
    ensures { result ≡ acc0_first_radicand s a_max j_max }
{
    s.ad_ad / (2.0 * s.j_max_j_max) - s.ad * (a_max - s.a0) / (s.j_max_j_max)
        + (a_max * s.tf - s.vd) / j_max
}

#[tactic(auto, unfolding(crate::specs::TimeAcc0::acc0_first_times))]
fn first_times(s: PositionThirdOrderStep2, a_max: f64, j_max: f64, h1: f64) -> Times
    ensures { result ≡ acc0_first_times s a_max j_max h1 }
{
    let t0 = (a_max - s.a0) / j_max;
    let t1 = s.tf - s.ad / j_max - 2.0 * h1;
    let t2 = h1;
    let t3 = 0.0;
    let t4 = (s.af - a_max) / j_max + h1;
    let t5 = 0.0;
    let t6 = 0.0;
    times_of(t0, t1, t2, t3, t4, t5, t6)
}

#[tactic(auto, unfolding(crate::specs::TimeAcc0::acc0_first))]
pub fn first(s: PositionThirdOrderStep2, l: Limits) -> Trial
    ensures { result ≡ acc0_first s l }
{
    let root = sqrt(first_radicand(s, l.a_max, l.j_max));
    let h1 = to_f64(root);
    let times = first_times(s, l.a_max, l.j_max, h1);
    trial_of(
        is_mark(root),
        times,
        ControlSigns::UDUD,
        ReachedLimits::None,
        l.j_max,
    )
}

// Second attempt: UDDU by its signs, where the Rust's comment says UDUD

#[tactic(auto, unfolding(crate::specs::TimeAcc0::acc0_second_h0a))]
fn second_h0a(s: PositionThirdOrderStep2, a_max: f64, j_max: f64) -> f64
    ensures { result ≡ acc0_second_h0a s a_max j_max }
{
    -s.a0_a0 + s.af_af - 2.0 * s.ad * a_max + 2.0 * j_max * (a_max * s.tf - s.vd)
}

#[tactic(auto, unfolding(crate::specs::TimeAcc0::acc0_second_h0b))]
fn second_h0b(s: PositionThirdOrderStep2, a_max: f64, j_max: f64) -> f64
    ensures { result ≡ acc0_second_h0b s a_max j_max }
{
    s.a0_p3 + 2.0 * s.af_p3
        - 6.0 * s.af_af * a_max
        - 3.0 * s.a0_a0 * (s.af - j_max * s.tf)
        - 3.0 * s.a0 * a_max * (a_max - 2.0 * s.af + 2.0 * j_max * s.tf)
        - 3.0
            * j_max
            * (j_max * (-2.0 * s.pd + a_max * s.tf_tf + 2.0 * s.tf * s.v0)
                + a_max * (a_max * s.tf - 2.0 * s.vd))
        + 3.0 * s.af * (a_max * a_max + 2.0 * a_max * j_max * s.tf - 2.0 * j_max * s.vd)
}

#[tactic(auto, unfolding(crate::specs::TimeAcc0::acc0_second_radicand))]
fn second_radicand(h0a: f64, h0b: f64) -> f64
    ensures { result ≡ acc0_second_radicand h0a h0b }
{
    4.0 * h0b * h0b - 18.0 * h0a * h0a * h0a
}

#[tactic(auto, unfolding(crate::specs::TimeAcc0::acc0_second_h0))]
fn second_h0(j_max: f64, root: f64) -> f64
    ensures { result ≡ acc0_second_h0 j_max root }
{
    float::abs(j_max) * root
}

#[tactic(auto, unfolding(crate::specs::TimeAcc0::acc0_second_t1))]
fn second_t1(s: PositionThirdOrderStep2, a_max: f64, j_max: f64, h1: f64) -> f64
    ensures { result ≡ acc0_second_t1 s a_max j_max h1 }
{
    (-s.a0_p3
        + s.af_p3
        + s.af_af * (-6.0 * a_max + 3.0 * j_max * s.tf)
        + s.a0_a0 * (-3.0 * s.af + 6.0 * a_max + 3.0 * j_max * s.tf)
        + 6.0 * s.af * (a_max * a_max - j_max * s.vd)
        + 3.0 * s.a0 * (s.af_af - 2.0 * (a_max * a_max + j_max * s.vd))
        - 6.0 * j_max * (a_max * (a_max * s.tf - 2.0 * s.vd) + j_max * s.g2))
        / h1
}

#[tactic(auto, unfolding(crate::specs::TimeAcc0::acc0_second_times))]
fn second_times(
    s: PositionThirdOrderStep2,
    a_max: f64,
    j_max: f64,
    h0: f64,
    h1: f64,
    t1: f64,
) -> Times
    ensures { result ≡ acc0_second_times s a_max j_max h0 h1 t1 }
{
    let t0 = (-s.a0 + a_max) / j_max;
    let t2 = -(s.ad + h0 / h1) / (2.0 * j_max) + s.tf / 2.0 - t1 / 2.0;
    let t3 = h0 / (j_max * h1);
    let t4 = 0.0;
    let t5 = 0.0;
    let t6 = s.tf - (t0 + t1 + t2 + t3);
    times_of(t0, t1, t2, t3, t4, t5, t6)
}

#[tactic(auto, unfolding(crate::specs::TimeAcc0::acc0_second, crate::specs::TimeAcc0::acc0_second_h1))]
pub fn second(s: PositionThirdOrderStep2, l: Limits) -> Trial
    ensures { result ≡ acc0_second s l }
{
    let h0a = second_h0a(s, l.a_max, l.j_max);
    let h0b = second_h0b(s, l.a_max, l.j_max);
    let root = sqrt(second_radicand(h0a, h0b));
    let h0 = second_h0(l.j_max, to_f64(root));
    let h1 = 3.0 * l.j_max * h0a;
    let t1 = second_t1(s, l.a_max, l.j_max, h1);
    let times = second_times(s, l.a_max, l.j_max, h0, h1, t1);
    trial_of(
        is_mark(root),
        times,
        ControlSigns::UDDU,
        ReachedLimits::None,
        l.j_max,
    )
}

// Third attempt: UDDU, Solution 1, a[3] other than 0

#[tactic(auto, unfolding(crate::specs::TimeAcc0::acc0_third_h0a))]
fn third_h0a(s: PositionThirdOrderStep2, a_max: f64, j_max: f64) -> f64
    ensures { result ≡ acc0_third_h0a s a_max j_max }
{
    s.a0_p3 + 2.0 * s.af_p3
        - 6.0 * (s.af_af + a_max * a_max) * a_max
        - 6.0 * (s.a0 + s.af) * a_max * j_max * s.tf
        + 9.0 * a_max * a_max * (s.af + j_max * s.tf)
        + 3.0 * s.a0 * a_max * (-2.0 * s.af + 3.0 * a_max)
        + 3.0 * s.a0_a0 * (s.af - 2.0 * a_max + j_max * s.tf)
        - 6.0 * s.j_max_j_max * s.g1
        + 6.0 * (s.af - a_max) * j_max * s.vd
        - 3.0 * a_max * s.j_max_j_max * s.tf_tf
}

#[tactic(auto, unfolding(crate::specs::TimeAcc0::acc0_third_h0b))]
fn third_h0b(s: PositionThirdOrderStep2, a_max: f64, j_max: f64) -> f64
    ensures { result ≡ acc0_third_h0b s a_max j_max }
{
    s.a0_a0
        + s.af_af
        + 2.0 * (a_max * a_max - (s.a0 + s.af) * a_max + j_max * (s.vd - a_max * s.tf))
}

#[tactic(auto, unfolding(crate::specs::TimeAcc0::acc0_third_radicand))]
fn third_radicand(h0a: f64, h0b: f64) -> f64
    ensures { result ≡ acc0_third_radicand h0a h0b }
{
    4.0 * h0a * h0a - 18.0 * h0b * h0b * h0b
}

#[tactic(auto, unfolding(crate::specs::TimeAcc0::acc0_third_h1))]
fn third_h1(j_max: f64, root: f64) -> f64
    ensures { result ≡ acc0_third_h1 j_max root }
{
    float::abs(j_max) / j_max * root
}

#[tactic(auto, unfolding(crate::specs::TimeAcc0::acc0_third_times))]
fn third_times(
    s: PositionThirdOrderStep2,
    a_max: f64,
    j_max: f64,
    h0a: f64,
    h1: f64,
    h2: f64,
) -> Times
    ensures { result ≡ acc0_third_times s a_max j_max h0a h1 h2 }
{
    let t0 = (-s.a0 + a_max) / j_max;
    let t1 = s.ad / j_max - 2.0 * t0 - (2.0 * h0a - h1) / h2 + s.tf;
    let t2 = -(2.0 * h0a + h1) / h2;
    let t3 = (2.0 * h0a - h1) / h2;
    let t4 = s.tf - (t0 + t1 + t2 + t3);
    let t5 = 0.0;
    let t6 = 0.0;
    times_of(t0, t1, t2, t3, t4, t5, t6)
}

#[tactic(auto, unfolding(crate::specs::TimeAcc0::acc0_third, crate::specs::TimeAcc0::acc0_third_h2))]
pub fn third(s: PositionThirdOrderStep2, l: Limits) -> Trial
    ensures { result ≡ acc0_third s l }
{
    let h0a = third_h0a(s, l.a_max, l.j_max);
    let h0b = third_h0b(s, l.a_max, l.j_max);
    let root = sqrt(third_radicand(h0a, h0b));
    let h1 = third_h1(l.j_max, to_f64(root));
    let h2 = 6.0 * l.j_max * h0b;
    let times = third_times(s, l.a_max, l.j_max, h0a, h1, h2);
    trial_of(
        is_mark(root),
        times,
        ControlSigns::UDDU,
        ReachedLimits::Acc0,
        l.j_max,
    )
}
