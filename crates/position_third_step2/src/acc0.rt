// The fifth shape: the first acceleration reaches its limit. Its first two attempts carry the label None.
ghost use Rattle.std.specs.Prelude.{◌≡◌, [], ◌∷◌};
ghost use Rattle.profile.specs.Parts.{profile_in, checked_in};
ghost use Rattle.step2_attempt.specs.Attempt.{tried_of};
ghost use Rattle.time_acc0.specs.TimeAcc0.{acc0_first, acc0_second, acc0_third};

use labels::Labels;
use profile::in_place::Verdict;
use row::NUMBERS;
use step2_attempt::tried;
use step2_solver::{Limits, PositionThirdOrderStep2};

pub fn time_acc0(
    s: PositionThirdOrderStep2,
    l: Limits,
    x: &mut [f64; NUMBERS],
    labels: Labels,
) -> Verdict
    ensures { checked_in x.new result
        ≡ tried_of l (acc0_first s l ∷ acc0_second s l ∷ acc0_third s l ∷ [])
        (profile_in x.old labels) }
{
    let r = tried(time_acc0::first(s, l), l, x, labels);
    if r.ok {
        return r;
    }
    let r = tried(time_acc0::second(s, l), l, x, r.labels);
    if r.ok {
        return r;
    }
    tried(time_acc0::third(s, l), l, x, r.labels)
}
