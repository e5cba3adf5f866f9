// A trial of a shape: its seven times, held against the goal and the limits by `check`.
#![tactic(auto)]

ghost use Rattle.std.specs.Prelude.{◌≡◌};
ghost use Rattle.profile.specs.Parts.{profile_in, checked_in};
ghost use Rattle.step2_attempt.specs.Attempt.{try_of};

use labels::Labels;
use profile::in_place::{Verdict, check_with_timing};
use row::{NUMBERS, set_times};
use step2_solver::{Limits, Trial};

pub fn tried(k: Trial, l: Limits, x: &mut [f64; NUMBERS], labels: Labels) -> Verdict
    ensures { checked_in x.new result ≡ try_of l k (profile_in x.old labels) }
{
    if k.made {
        let t = k.times;
        set_times(x, [t.t0, t.t1, t.t2, t.t3, t.t4, t.t5, t.t6]);
        check_with_timing(
            x, labels, k.signs, k.label, k.jf, l.v_max, l.v_min, l.a_max, l.a_min, k.marked,
        )
    } else {
        Verdict { ok: false, labels }
    }
}
