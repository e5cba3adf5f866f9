// A shape asked in place: the profile's arrays are lent, so that nothing is copied from one attempt to the next.
ghost use Rattle.std.specs.Prelude.{◌≡◌};
ghost use Rattle.profile.specs.Parts.{profile_in, checked_in};
ghost use Rattle.position_third_step2.specs.Shape.{is_rest_to_rest_of, shape_of};

use crate::acc0::time_acc0;
use crate::acc0_acc1::time_acc0_acc1;
use crate::acc0_acc1_vel::time_acc0_acc1_vel;
use labels::Labels;
use profile::in_place::Verdict;
use row::NUMBERS;
use step2_over_roots::RootAnswers;
use step2_over_roots::acc0_vel::time_acc0_vel;
use step2_over_roots::acc1_vel::time_acc1_vel;
use step2_quartics::Quartics;
use step2_solver::{Limits, PositionThirdOrderStep2, Shape};

fn is_rest_to_rest(shape: Shape) -> bool
    ensures { result ≡ is_rest_to_rest_of shape }
{
    matches!(shape, Shape::RestToRest)
}

// The quartics and the root answers are those of the second and third shape; the others do not look at them. The fourth
// shape and kind 08 have one arm: one call for both takes a line less time than two.
pub fn ask(
    shape: Shape,
    s: PositionThirdOrderStep2,
    l: Limits,
    q: Quartics,
    answers: RootAnswers,
    x: &mut [f64; NUMBERS],
    labels: Labels,
) -> Verdict
    ensures { checked_in x.new result
        ≡ shape_of shape s l q answers.uddu answers.udud
        (profile_in x.old labels) }
{
    match shape {
        Shape::Acc0Acc1Vel => time_acc0_acc1_vel(s, l, x, labels),
        Shape::Acc1Vel => time_acc1_vel(s, l, q, answers, x, labels),
        Shape::Acc0Vel => time_acc0_vel(s, l, q, answers, x, labels),
        Shape::Acc0 => time_acc0(s, l, x, labels),
        Shape::Acc0Acc1 | Shape::RestToRest => {
            time_acc0_acc1(is_rest_to_rest(shape), s, l, x, labels)
        }
    }
}
