// The seven phases of `check`, up to the first whose test says no.
ghost use Rattle.std.specs.Prelude.{◌≡◌};
ghost use Rattle.phases.specs.Run.{Step};
ghost use Rattle.row.specs.Row.{numbers_in};
ghost use Rattle.phases.specs.Moved.{moved_of};

use super::phase::phase;
use super::replacing::Replacing;
use limits::Band;
use row::{A, J, NUMBERS, P, V};

// Where a phase begins is kept in numbers: read back from the row it would cost a store and a load each.
// Stays: an index over the phases, since phase i reads two places of the row and writes three others, and asks which
// phase it is (`zero_inside`, `replaced`): an iterator would need five slices of the one row side by side.
pub fn nodes(x: &mut [f64; NUMBERS], replacing: Replacing, band: Band) -> bool
    ensures { record { ok = result; left = numbers_in x.new }
        ≡ moved_of replacing.tests replacing.set_limits replacing.a_max replacing.a_min band
        (numbers_in x.old) }
{
    let all = &x[..];
    let mut p0 = all[P];
    let mut v0 = all[V];
    let mut a0 = all[A];
    for i in 0..7 {
        let next = phase(i, x[i], x[J + i], p0, v0, a0, replacing, band);
        p0 = next.p;
        v0 = next.v;
        a0 = next.a;
        x[P + 1 + i] = p0;
        x[V + 1 + i] = v0;
        x[A + 1 + i] = a0;
        if !next.ok {
            return false;
        }
    }
    true
}
