// The first shape: both accelerations and the velocity reach their limits.
ghost use Rattle.std.specs.Prelude.{◌≡◌, [], ◌∷◌};
ghost use Rattle.profile.specs.Parts.{profile_in, checked_in};
ghost use Rattle.step2_attempt.specs.Attempt.{tried_of};
ghost use Rattle.time_acc0_acc1_vel.specs.TimeAcc0Acc1Vel.{acc0_acc1_vel_uddu, acc0_acc1_vel_udud};

use labels::Labels;
use profile::in_place::Verdict;
use row::NUMBERS;
use step2_attempt::tried;
use step2_solver::{Limits, PositionThirdOrderStep2};

pub fn time_acc0_acc1_vel(
    s: PositionThirdOrderStep2,
    l: Limits,
    x: &mut [f64; NUMBERS],
    labels: Labels,
) -> Verdict
    ensures { checked_in x.new result
        ≡ tried_of l (acc0_acc1_vel_uddu s l ∷ acc0_acc1_vel_udud s l ∷ [])
        (profile_in x.old labels) }
{
    let r = tried(time_acc0_acc1_vel::uddu(s, l), l, x, labels);
    if r.ok {
        return r;
    }
    tried(time_acc0_acc1_vel::udud(s, l), l, x, r.labels)
}
