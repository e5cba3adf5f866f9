// `check` in place: over a profile's numbers in one lent row.
ghost use Rattle.std.specs.Prelude.{◌≡◌, false};
ghost use Rattle.labels.specs.Labels.{labels};
ghost use Rattle.profile.specs.Parts.{profile_in, checked_in};
ghost use Rattle.profile.specs.Check.{check_of};
ghost use Rattle.profile.specs.Timing.{timing_of};

use jerks::jerks;
use labels::causes::{Cause, counted, is_yes};
use labels::tests::tests_under;
use labels::{ControlSigns, Direction, Labels, ReachedLimits, marked_labels};
use limits::{direction, ended, widened};
use phases::nodes::nodes;
use phases::replacing::Replacing;
use phases::times::{refusal, sums};
use row::{NUMBERS, set_jerks, times};

// Stays: a flag beside the labels, since a no leaves labels as a yes does: one call more, its cause and perhaps another
// direction (`check_of`), and a line of kind 00 answers them.
#[derive(Clone, Copy)]
pub struct Verdict {
    pub ok: bool,
    pub labels: Labels,
}

// A no on the way: limits and signs are those of the call before.
fn no(was: Labels, direction: Direction, calls: u8, cause: Cause) -> Verdict
    ensures { result ≡ record {
      ok = false;
      labels = labels was.limits direction was.control_signs calls cause;
    } }
{
    Verdict {
        ok: false,
        labels: Labels {
            direction,
            calls,
            cause,
            ..was
        },
    }
}

// Stays: jf to a_min one by one, since they are the parameters of the Rust's `check`, in its order. The lent row and
// the labels stay two, here and in all that calls this: the row is changed in place, and the labels come back in a
// verdict.
pub fn check(
    x: &mut [f64; NUMBERS],
    labels: Labels,
    control_signs: ControlSigns,
    limits: ReachedLimits,
    set_limits: bool,
    jf: f64,
    v_max: f64,
    v_min: f64,
    a_max: f64,
    a_min: f64,
) -> Verdict
    ensures { checked_in x.new result
        ≡ check_of control_signs limits set_limits jf v_max v_min a_max a_min
        (profile_in x.old labels) }
{
    let calls = counted(labels.calls);
    let was = labels.direction;
    if !sums(x) {
        return no(labels, was, calls, Cause::NegativeTime);
    }
    let made = tests_under(limits);
    let refused = refusal(made, x);
    if !is_yes(refused) {
        return no(labels, was, calls, refused);
    }
    set_jerks(x, jerks(control_signs, times(x), jf));
    let way = direction(v_max);
    let v_band = widened(v_max, v_max, v_min);
    let replacing = Replacing {
        tests: made,
        set_limits,
        a_max,
        a_min,
    };
    if !nodes(x, replacing, v_band) {
        return no(labels, way, calls, Cause::VelocityAtZero);
    }
    let a_band = widened(v_max, a_max, a_min);
    let cause = ended(x, a_band, v_band);
    Verdict {
        ok: is_yes(cause),
        labels: Labels {
            limits,
            direction: way,
            control_signs,
            calls,
            cause,
        },
    }
}

// Time is not tested: the Rust's formulas are to sum up to the duration. A marked attempt took a square root that does
// not exist.
#[tactic(auto, unfolding(crate::specs::Timing::timing_of, crate::specs::Parts::profile_in))]
pub fn check_with_timing(
    x: &mut [f64; NUMBERS],
    labels: Labels,
    control_signs: ControlSigns,
    limits: ReachedLimits,
    jf: f64,
    v_max: f64,
    v_min: f64,
    a_max: f64,
    a_min: f64,
    marked: bool,
) -> Verdict
    ensures { checked_in x.new result
        ≡ timing_of control_signs limits jf v_max v_min a_max a_min marked
        (profile_in x.old labels) }
{
    let answer = check(
        x,
        labels,
        control_signs,
        limits,
        false,
        jf,
        v_max,
        v_min,
        a_max,
        a_min,
    );
    Verdict {
        labels: marked_labels(marked, answer.ok, answer.labels),
        ..answer
    }
}
