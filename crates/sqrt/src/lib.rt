// The square root of an f64, rounded once to the nearest f64; a number below zero and a NaN have none.
#![tactic(auto)]

mod integer;
mod parts;

ghost use Rattle.std.specs.Prelude.{◌≡◌};
ghost use Rattle.sqrt.specs.Sqrt.{square_root_of, f64_of, is_mark_of, sqrt_of};

use self::parts::root_bits;

// A root, or None, the mark that the argument is below zero or NaN.
#[tactic(auto, using(crate::proofs::Cases::has_root, crate::proofs::Cases::has_mark))]
pub fn sqrt(x: f64) -> Option<f64>
    ensures { result ≡ square_root_of x }
{
    // -0 is not below zero
    if x >= 0.0 {
        Some(sqrt_unmarked(x))
    } else {
        None
    }
}

// What goes on into the formulas: from a mark, NaN.
// Stays: two names for what an Option offers, since both are public with promises and edits of their own (`f64_of`,
// `is_mark_of`).
#[tactic(auto, using(crate::proofs::Cases::or_nan))]
pub fn to_f64(root: Option<f64>) -> f64
    ensures { result ≡ f64_of root }
{
    root.unwrap_or(f64::NAN)
}

pub fn is_mark(root: Option<f64>) -> bool
    ensures { result ≡ is_mark_of root }
{
    root.is_none()
}

// The same as an f64, NaN where there is no root: for those that carry no mark, the quartic's.
#[tactic(auto, using(crate::proofs::Cases::ways_out))]
pub fn sqrt_unmarked(x: f64) -> f64
    ensures { result ≡ sqrt_of x }
{
    if x > 0.0 {
        let bits = f64::to_bits(x);
        // the bits of infinity are above those of every finite number
        // Stays: the number, for f64::INFINITY: `root_bits` requires it of the bits in these digits.
        if bits < 0x7ff0_0000_0000_0000 {
            f64::from_bits(root_bits(bits))
        } else {
            x // infinity
        }
    } else if x == 0.0 {
        x // -0 stays -0
    } else {
        f64::NAN
    }
}
