// position_third_step2.rs: five shapes of step 2, each a few attempts at seven times, tried in the Rust's order; and
// the fourth with the t[1] of document 02, Paper 4.
#![tactic(auto)]

mod acc0;
mod acc0_acc1;
mod acc0_acc1_vel;
pub mod in_place;

ghost use Rattle.std.specs.Prelude.{◌≡◌};
ghost use Rattle.step2_solver.specs.declared.Shape.TheVariants.{Acc0Acc1Vel, Acc1Vel, Acc0Vel, Acc0Acc1, Acc0};
ghost use Rattle.step2_solver.specs.declared.Shape.TheVariants.{RestToRest};
ghost use Rattle.position_third_step2.specs.Shape.{asked_of, limits, unasked};

use in_place::ask;
use profile::{Checked, Profile};
use roots::RootAnswer;
use step2_over_roots::RootAnswers;
use step2_quartics::quartics_of;
use step2_solver::{Limits, PositionThirdOrderStep2, Shape};

// Stands for the answers of a shape that looks at none.
// Stays: answers of 0 and no Option: `asked_of` has them (`unasked`), and `ask` takes answers of any shape.
const UNASKED: RootAnswers = RootAnswers {
    uddu: RootAnswer::CubeRoot(0.0),
    udud: RootAnswer::CubeRoot(0.0),
};

// Any shape by value: on the row of the profile.
fn asked(
    shape: Shape,
    s: PositionThirdOrderStep2,
    l: Limits,
    answers: RootAnswers,
    profile: Profile,
) -> Checked
    ensures { result ≡ asked_of shape s l answers.uddu answers.udud profile }
{
    let mut x = profile.row();
    let q = quartics_of(shape, s, l);
    let answer = ask(shape, s, l, q, answers, &mut x, profile.labels());
    Checked::from_row(x, answer)
}

fn limits(v_max: f64, v_min: f64, a_max: f64, a_min: f64, j_max: f64) -> Limits
    ensures { result ≡ limits v_max v_min a_max a_min j_max }
{
    Limits {
        v_max,
        v_min,
        a_max,
        a_min,
        j_max,
    }
}

// Stays: six functions, each with the limits one by one, and two of them with first and second one by one: five are the
// Rust's by name, with its parameters in its order, and the sixth, document 02's, is like them.

pub fn time_acc0_acc1_vel(
    s: PositionThirdOrderStep2,
    profile: Profile,
    v_max: f64,
    v_min: f64,
    a_max: f64,
    a_min: f64,
    j_max: f64,
) -> Checked
    ensures { result ≡ asked_of Acc0Acc1Vel s (limits v_max v_min a_max a_min j_max)
        unasked unasked profile }
{
    let l = limits(v_max, v_min, a_max, a_min, j_max);
    asked(Shape::Acc0Acc1Vel, s, l, UNASKED, profile)
}

pub fn time_acc1_vel(
    s: PositionThirdOrderStep2,
    first: RootAnswer,
    second: RootAnswer,
    profile: Profile,
    v_max: f64,
    v_min: f64,
    a_max: f64,
    a_min: f64,
    j_max: f64,
) -> Checked
    ensures { result ≡ asked_of Acc1Vel s (limits v_max v_min a_max a_min j_max) first second profile }
{
    let l = limits(v_max, v_min, a_max, a_min, j_max);
    let answers = RootAnswers {
        uddu: first,
        udud: second,
    };
    asked(Shape::Acc1Vel, s, l, answers, profile)
}

pub fn time_acc0_vel(
    s: PositionThirdOrderStep2,
    first: RootAnswer,
    second: RootAnswer,
    profile: Profile,
    v_max: f64,
    v_min: f64,
    a_max: f64,
    a_min: f64,
    j_max: f64,
) -> Checked
    ensures { result ≡ asked_of Acc0Vel s (limits v_max v_min a_max a_min j_max) first second profile }
{
    let l = limits(v_max, v_min, a_max, a_min, j_max);
    let answers = RootAnswers {
        uddu: first,
        udud: second,
    };
    asked(Shape::Acc0Vel, s, l, answers, profile)
}

pub fn time_acc0_acc1(
    s: PositionThirdOrderStep2,
    profile: Profile,
    v_max: f64,
    v_min: f64,
    a_max: f64,
    a_min: f64,
    j_max: f64,
) -> Checked
    ensures { result ≡ asked_of Acc0Acc1 s (limits v_max v_min a_max a_min j_max) unasked unasked profile }
{
    let l = limits(v_max, v_min, a_max, a_min, j_max);
    asked(Shape::Acc0Acc1, s, l, UNASKED, profile)
}

pub fn time_acc0(
    s: PositionThirdOrderStep2,
    profile: Profile,
    v_max: f64,
    v_min: f64,
    a_max: f64,
    a_min: f64,
    j_max: f64,
) -> Checked
    ensures { result ≡ asked_of Acc0 s (limits v_max v_min a_max a_min j_max) unasked unasked profile }
{
    let l = limits(v_max, v_min, a_max, a_min, j_max);
    asked(Shape::Acc0, s, l, UNASKED, profile)
}

// Document 02's, kind 08.
pub fn time_rest_to_rest(
    s: PositionThirdOrderStep2,
    profile: Profile,
    v_max: f64,
    v_min: f64,
    a_max: f64,
    a_min: f64,
    j_max: f64,
) -> Checked
    ensures { result ≡ asked_of RestToRest s (limits v_max v_min a_max a_min j_max)
        unasked unasked profile }
{
    let l = limits(v_max, v_min, a_max, a_min, j_max);
    asked(Shape::RestToRest, s, l, UNASKED, profile)
}
