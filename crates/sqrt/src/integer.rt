// Integer square roots by division.
ghost use Rattle.std.specs.Prelude.{◌*◌, ◌^◌};
ghost use Rattle.sqrt.specs.Sqrt.{IsRoot};
ghost use Rattle.sqrt.specs.Steps.{Radicand, Guess, Follows};

// One step of Newton's method.
// Stays: the range of `a` asked of the four functions of this file: a type for it would be made in one place, and taken
// apart in each formula.
#[tactic(auto, using(crate::proofs::Newton::follows))]
fn step(a: u64, h: u64) -> u64
    requires radicand { Radicand a }
    requires guess { Guess h }
    ensures { Follows a h result }
{
    (h + a / h) / 2
}

// With a as z * 2^52, a first guess of second degree: (0.547 + 0.492 z - z^2 / 32) * 2^26,
// within 9 parts in 1000 of the root.
fn guess(a: u64) -> u64
    requires { Radicand a }
    ensures { Guess result }
{
    let z = a / 0x400_0000;
    z * (1_056_700_000 - z) / 0x8000_0000 + 36_700_000
}

// The whole part of the root of a. Two steps leave less than one, and the loop is for what the divisions cut off.
fn root27(a: u64) -> u64
    requires { Radicand a }
    ensures { IsRoot a result }
{
    let mut h = step(a, step(a, guess(a)));
    while a < h * h {
        h = step(a, h);
    }
    h
}

// The whole part of the root of a * 2^54: 27 more digits, by one division.
#[tactic(auto, using(crate::proofs::Halves::halves, crate::proofs::Halves::kept))]
pub fn root54(a: u64) -> u64
    requires { Radicand a }
    ensures { IsRoot (a * 2 ^ 54) result }
{
    let h = root27(a);
    let n = (a - h * h) * 0x800_0000;
    let c = n / (2 * h);
    let t = n % (2 * h);
    let r = h * 0x800_0000 + c;
    if t * 0x800_0000 < c * c { r - 1 } else { r }
}
