// A part of a row, by value.
ghost use Rattle.std.specs.Prelude.{◌≡◌, ◌+◌, ◌≤◌};
ghost use Rattle.row.specs.Row.{part};

use row::NUMBERS;

// N numbers, from place k of the row on.
#[tactic(auto, unfolding(row::specs::Row::part))]
pub fn part<const N: usize>(x: &[f64; NUMBERS], k: usize) -> [f64; N]
    requires { k + N ≤ 48 }
    ensures { result ≡ part k N x.now }
{
    *x[k..].first_chunk::<N>().unwrap()
}
