// The phase times: none below 0, their running sums, and the tests of the label.
ghost use Rattle.std.specs.Prelude.{◌≡◌};
ghost use Rattle.phases.specs.Run.{Step};
ghost use Rattle.labels.specs.Causes.{cause_of};
ghost use Rattle.phases.specs.Times.{four_tests, label_tests};
ghost use Rattle.row.specs.Row.{numbers_in};
ghost use Rattle.phases.specs.Moved.{summed_of};

use labels::causes::Cause;
use labels::tests::Tests;
use row::{NUMBERS, T_SUM};

const T_MAX: f64 = 1e12;

// Stays: an index over the sums, since under an adapter of `iter_mut` an invariant has no name for the places that are
// written (as in hex_bytes' `pairs`), and a no on the way leaves those after it as they came.
pub fn sums(x: &mut [f64; NUMBERS]) -> bool
    ensures { record { ok = result; left = numbers_in x.new } ≡ summed_of (numbers_in x.old) }
{
    let first = x[0];
    if first < 0.0 {
        return false;
    }
    x[T_SUM] = first;
    for i in 0..6 {
        let next = x[i + 1];
        if next < 0.0 {
            return false;
        }
        x[T_SUM + 1 + i] = x[T_SUM + i] + next;
    }
    true
}

// All are looked at before any is told from the others: most times that are not negative pass.
fn first_short(t3: bool, t1: bool, t5: bool, total: bool) -> Cause
    ensures { result ≡ cause_of (four_tests t3 t1 t5 total) }
{
    if !(t3 | t1 | t5 | total) {
        return Cause::Yes;
    }
    if t3 {
        return Cause::T3;
    }
    if t1 {
        return Cause::T1;
    }
    if t5 {
        return Cause::T5;
    }
    Cause::Total
}

// The cause of the first test of the label or of the total that fails.
#[tactic(auto, using(row::proofs::Rows::part_at), unfolding(crate::specs::Times::label_tests))]
pub fn refusal(tests: Tests, x: &[f64; NUMBERS]) -> Cause
    ensures { result ≡ cause_of (label_tests tests (numbers_in x.now).t
        (numbers_in x.now).t_sum) }
{
    first_short(
        tests.t3 & (x[3] < f64::EPSILON),
        tests.t1 & (x[1] < f64::EPSILON),
        tests.t5 & (x[5] < f64::EPSILON),
        x[T_SUM + 6] > T_MAX,
    )
}
