// `check` by value for the benchmarks in bench/: the record is made of a lent row, and what comes back is stored there.
// It has a library of its own: beside another caller of `check` in place, that function is called and not inlined.
#![tactic(auto)]

ghost use Rattle.std.specs.Prelude.{◌≡◌};
ghost use Rattle.row.specs.Row.{numbers_in};
ghost use Rattle.bench_labels.specs.Lent.{check_lent_of};

use bench_labels::answer_number;
use labels::{ControlSigns, ReachedLimits, start_labels};
use profile::Profile;
use profile::in_place::Verdict;
use row::NUMBERS;

#[unsafe(no_mangle)]
#[tactic(auto, using(bench_labels::proofs::Left::left), unfolding(profile::specs::Parts::profile_in))]
pub extern "C" fn bench_check_by_value(
    x: &mut [f64; NUMBERS],
    signs: u8,
    label: u8,
    set_limits: bool,
    jf: f64,
    v_max: f64,
    v_min: f64,
    a_max: f64,
    a_min: f64,
) -> u32
    ensures { record { number = result; numbers = numbers_in x.new }
        ≡ check_lent_of (numbers_in x.old) signs label set_limits jf v_max v_min a_max a_min }
{
    let profile = Profile::from_row(*x, start_labels());
    let checked = profile.check(
        ControlSigns::from(signs),
        ReachedLimits::from(label),
        set_limits,
        jf,
        v_max,
        v_min,
        a_max,
        a_min,
    );
    // Stays: a name for the record left: with `checked.profile` written out twice a call takes 115 ns in place of 112.
    // And no `Verdict::from(checked)`, which makes code of 808 instructions in place of 764 (its time was not taken).
    let next = checked.profile;
    *x = next.row();
    answer_number(Verdict {
        ok: checked.ok,
        labels: next.labels(),
    })
}
