// util.rs: the state after some time at constant jerk.
#![tactic(auto)]

ghost use Rattle.std.specs.Prelude.{◌≡◌};
ghost use Rattle.util.specs.Integrate.{integrate_of};

// Position, velocity and acceleration: the Rust's tuple.
#[derive(Clone, Copy)]
pub struct State {
    pub p: f64,
    pub v: f64,
    pub a: f64,
}

// The Rust divides by 2 where this multiplies by one half: the bits are the same (`halving`, crates/float/proofs).
pub fn integrate(t: f64, p0: f64, v0: f64, a0: f64, j: f64) -> State
    ensures { result ≡ integrate_of t p0 v0 a0 j }
{
    State {
        p: p0 + t * (v0 + t * (a0 * 0.5 + t * j / 6.0)),
        v: v0 + t * (a0 + t * j * 0.5),
        a: a0 + t * j,
    }
}
