// What the benchmarks in bench/ call from Rust: the square root, and `check` in place on a lent row.
// Stays: signs, label and the answer as numbers, here and in bench_by_value: an exported function takes no enum.
#![tactic(auto)]

ghost use Rattle.std.specs.Prelude.{◌≡◌};
ghost use Rattle.sqrt.specs.Sqrt.{sqrt_of};
ghost use Rattle.row.specs.Row.{numbers_in};
ghost use Rattle.bench_labels.specs.Lent.{check_lent_of};

use bench_labels::answer_number;
use labels::{ControlSigns, ReachedLimits, start_labels};
use row::NUMBERS;

#[unsafe(no_mangle)]
pub extern "C" fn bench_square_root(x: f64) -> f64
    ensures { result ≡ sqrt_of x }
{
    sqrt::sqrt_unmarked(x)
}

#[unsafe(no_mangle)]
#[tactic(auto, using(bench_labels::proofs::Left::left), unfolding(profile::specs::Parts::profile_in))]
pub extern "C" fn bench_check_in_place(
    x: &mut [f64; NUMBERS],
    signs: u8,
    label: u8,
    set_limits: bool,
    jf: f64,
    v_max: f64,
    v_min: f64,
    a_max: f64,
    a_min: f64,
) -> u32
    ensures { record { number = result; numbers = numbers_in x.new }
        ≡ check_lent_of (numbers_in x.old) signs label set_limits jf v_max v_min a_max a_min }
{
    let answer = profile::in_place::check(
        x,
        start_labels(),
        ControlSigns::from(signs),
        ReachedLimits::from(label),
        set_limits,
        jf,
        v_max,
        v_min,
        a_max,
        a_min,
    );
    answer_number(answer)
}
