// One phase of `check`: the node after it, and the velocity at zero acceleration.
ghost use Rattle.std.specs.Prelude.{◌≡◌};
ghost use Rattle.phases.specs.Phase.{zero_inside_of, next_of};

use super::replacing::Replacing;
use limits::Band;
use util::integrate;

#[tactic(auto, unfolding(crate::specs::Phase::zero_inside_of))]
fn zero_inside(i: usize, v0: f64, a0: f64, a1: f64, j: f64, band: Band) -> bool
    ensures { result ≡ zero_inside_of i v0 a0 a1 j band }
{
    if (i > 1) & (a1 * a0 < -f64::EPSILON) {
        let v_a_zero = v0 - (a0 * a0) / (2.0 * j);
        !((v_a_zero > band.upp) | (v_a_zero < band.low))
    } else {
        true
    }
}

// The node after a phase, and whether its test passes.
// Stays: a flag beside the node, since the node of a phase whose test says no is recorded too (`node_of`).
#[derive(Clone, Copy)]
pub struct Next {
    pub ok: bool,
    pub p: f64,
    pub v: f64,
    pub a: f64,
}

// Stays: p0, v0, a0 one by one, no `State`: they are handed on to the Rust's `integrate`, which takes them so.
pub fn phase(
    i: usize,
    t: f64,
    j: f64,
    p0: f64,
    v0: f64,
    a0: f64,
    replacing: Replacing,
    band: Band,
) -> Next
    ensures { result ≡ next_of replacing.tests replacing.set_limits replacing.a_max replacing.a_min
        band i t j p0 v0 a0 }
{
    let next = integrate(t, p0, v0, a0, j);
    let a1 = replacing.replaced(i, next.a);
    Next {
        ok: zero_inside(i, v0, a0, a1, j, band),
        p: next.p,
        v: next.v,
        a: a1,
    }
}
