// position_third_step2.rs: the twelve numbers, the solver's record, and an attempt as data. Each shape is a crate of
// its own above this one, with every expression and every attempt of it. There a time with a long numerator has a
// function of its own, and the times take its value, as they take h1 or jf: but for rounding they add up to tf whatever
// those are.

#![tactic(auto)]

ghost use Rattle.std.specs.Prelude.{◌≡◌};
ghost use Rattle.step2_solver.specs.New.{new_of, solver_of, limits_of};
ghost use Rattle.step2_solver.specs.Trials.{the_times, the_trial, no_trial_of};
ghost use Rattle.step2_solver.specs.Window.{outside_of};

use labels::{ControlSigns, ReachedLimits};

// The twelve numbers of a move, in the order of `new`.
#[derive(Clone, Copy, Default)]
pub struct Move {
    pub tf: f64,
    pub p0: f64,
    pub v0: f64,
    pub a0: f64,
    pub pf: f64,
    pub vf: f64,
    pub af: f64,
    pub v_max: f64,
    pub v_min: f64,
    pub a_max: f64,
    pub a_min: f64,
    pub j_max: f64,
}

// The limits that every shape is passed.
// Stays: the solver's record and the limits side by side in every function of a shape: in the Rust the one is `self`
// and the others are its parameters.
#[derive(Clone, Copy)]
pub struct Limits {
    pub v_max: f64,
    pub v_min: f64,
    pub a_max: f64,
    pub a_min: f64,
    pub j_max: f64,
}

// The Rust's five shapes; and the fourth with the t[1] of document 02, Paper 4, from rest to rest.
#[derive(Clone, Copy)]
pub enum Shape {
    Acc0Acc1Vel,
    Acc1Vel,
    Acc0Vel,
    Acc0Acc1,
    Acc0,
    RestToRest,
}

// The boundary numbers and their powers. The Rust keeps five limits and a flag besides, which these shapes never read.
#[derive(Clone, Copy)]
pub struct PositionThirdOrderStep2 {
    pub v0: f64,
    pub a0: f64,
    pub tf: f64,
    pub vf: f64,
    pub af: f64,

    // Pre-calculated expressions
    pub pd: f64,
    pub tf_tf: f64,
    pub tf_p3: f64,
    pub tf_p4: f64,
    pub vd: f64,
    pub vd_vd: f64,
    pub vf_vf: f64,
    pub ad: f64,
    pub ad_ad: f64,
    pub a0_a0: f64,
    pub af_af: f64,
    pub a0_p3: f64,
    pub a0_p4: f64,
    pub a0_p5: f64,
    pub a0_p6: f64,
    pub af_p3: f64,
    pub af_p4: f64,
    pub af_p5: f64,
    pub af_p6: f64,
    pub j_max_j_max: f64,
    pub g1: f64,
    pub g2: f64,
}

// The seven times that an attempt hands to `check`: the Rust's `profile.t`.
// Stays: seven fields, no array: each formula, and each fact about their sum (step2_times), names one of them.
#[derive(Clone, Copy)]
pub struct Times {
    pub t0: f64,
    pub t1: f64,
    pub t2: f64,
    pub t3: f64,
    pub t4: f64,
    pub t5: f64,
    pub t6: f64,
}

// An attempt as data: what is put into the profile, and what `check` is told of it. It is marked where it takes a
// square root that does not exist.
// Stays: `made` beside the values, no Option: `no_trial_of` promises times of 0 (edit times_in_no_attempt).
#[derive(Clone, Copy)]
pub struct Trial {
    pub made: bool,
    pub marked: bool,
    pub times: Times,
    pub signs: ControlSigns,
    pub label: ReachedLimits,
    pub jf: f64,
}

pub fn times_of(t0: f64, t1: f64, t2: f64, t3: f64, t4: f64, t5: f64, t6: f64) -> Times
    ensures { result ≡ the_times t0 t1 t2 t3 t4 t5 t6 }
{
    Times {
        t0,
        t1,
        t2,
        t3,
        t4,
        t5,
        t6,
    }
}

pub fn trial_of(
    marked: bool,
    times: Times,
    signs: ControlSigns,
    label: ReachedLimits,
    jf: f64,
) -> Trial
    ensures { result ≡ the_trial marked times signs label jf }
{
    Trial {
        made: true,
        marked,
        times,
        signs,
        label,
        jf,
    }
}

// The attempt is not made: nothing of it is put into a profile.
pub fn no_trial() -> Trial
    ensures { result ≡ no_trial_of }
{
    let times = Times {
        t0: 0.0,
        t1: 0.0,
        t2: 0.0,
        t3: 0.0,
        t4: 0.0,
        t5: 0.0,
        t6: 0.0,
    };
    Trial {
        made: false,
        marked: false,
        times,
        signs: ControlSigns::UDDU,
        label: ReachedLimits::None,
        jf: 0.0,
    }
}

// The roots that an attempt takes.
#[derive(Clone, Copy)]
pub struct Window {
    pub t_min: f64,
    pub t_max: f64,
}

// A NaN is not outside.
pub fn outside(w: Window, root: f64) -> bool
    ensures { result ≡ outside_of w root }
{
    (root < w.t_min) | (root > w.t_max)
}

impl PositionThirdOrderStep2 {
    // The limits other than j_max are taken, as by the Rust, and not used.
    #[tactic(auto, unfolding(crate::specs::New::new_of))]
    pub fn new(
        tf: f64,
        p0: f64,
        v0: f64,
        a0: f64,
        pf: f64,
        vf: f64,
        af: f64,
        v_max: f64,
        v_min: f64,
        a_max: f64,
        a_min: f64,
        j_max: f64,
    ) -> PositionThirdOrderStep2
        ensures { result ≡ new_of tf p0 v0 a0 pf vf af j_max }
    {
        let pd = pf - p0;
        let tf_tf = tf * tf;
        let tf_p3 = tf_tf * tf;
        let tf_p4 = tf_tf * tf_tf;

        let vd = vf - v0;
        let vd_vd = vd * vd;
        let vf_vf = vf * vf;

        let ad = af - a0;
        let ad_ad = ad * ad;
        let a0_a0 = a0 * a0;
        let af_af = af * af;

        let a0_p3 = a0 * a0_a0;
        let a0_p4 = a0_a0 * a0_a0;
        let a0_p5 = a0_p3 * a0_a0;
        let a0_p6 = a0_p4 * a0_a0;
        let af_p3 = af * af_af;
        let af_p4 = af_af * af_af;
        let af_p5 = af_p3 * af_af;
        let af_p6 = af_p4 * af_af;

        let j_max_j_max = j_max * j_max;

        let g1 = -pd + tf * v0;
        let g2 = -2.0 * pd + tf * (v0 + vf);
        PositionThirdOrderStep2 {
            v0,
            a0,
            tf,
            vf,
            af,
            pd,
            tf_tf,
            tf_p3,
            tf_p4,
            vd,
            vd_vd,
            vf_vf,
            ad,
            ad_ad,
            a0_a0,
            af_af,
            a0_p3,
            a0_p4,
            a0_p5,
            a0_p6,
            af_p3,
            af_p4,
            af_p5,
            af_p6,
            j_max_j_max,
            g1,
            g2,
        }
    }
}

impl Move {
    pub fn solver(self) -> PositionThirdOrderStep2
        ensures { result ≡ solver_of self }
    {
        PositionThirdOrderStep2::new(
            self.tf, self.p0, self.v0, self.a0, self.pf, self.vf, self.af, self.v_max, self.v_min,
            self.a_max, self.a_min, self.j_max,
        )
    }

    pub fn limits(self) -> Limits
        ensures { result ≡ limits_of self }
    {
        Limits {
            v_max: self.v_max,
            v_min: self.v_min,
            a_max: self.a_max,
            a_min: self.a_min,
            j_max: self.j_max,
        }
    }
}
