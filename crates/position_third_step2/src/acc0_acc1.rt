// The fourth shape: both accelerations reach their limits, and the velocity does not. The jerk is worked out. Kind 08
// is the same with document 02's t[1] from rest to rest.
ghost use Rattle.std.specs.Prelude.{◌≡◌, [], ◌∷◌};
ghost use Rattle.profile.specs.Parts.{profile_in, checked_in};
ghost use Rattle.step2_attempt.specs.Attempt.{tried_of};
ghost use Rattle.time_acc0_acc1.specs.RestToRest.{acc0_acc1_by};

use labels::Labels;
use profile::in_place::Verdict;
use row::NUMBERS;
use step2_attempt::tried;
use step2_solver::{Limits, PositionThirdOrderStep2};

pub fn time_acc0_acc1(
    rest_to_rest: bool,
    s: PositionThirdOrderStep2,
    l: Limits,
    x: &mut [f64; NUMBERS],
    labels: Labels,
) -> Verdict
    ensures { checked_in x.new result
        ≡ tried_of l (acc0_acc1_by rest_to_rest s l ∷ [])
        (profile_in x.old labels) }
{
    tried(time_acc0_acc1::attempt(rest_to_rest, s, l), l, x, labels)
}
