// Rust's methods on `f64` that the port uses, as functions. Each promise is an equation with a definition
// over the logic's account of IEEE 754, in which all NaNs are one.
#![tactic(auto)]

ghost use Rattle.std.specs.Prelude.{◌≡◌, cond};
ghost use Rattle.std.specs.Float.{binary64};
ghost use Rattle.std.specs.Float.Ieee.{of_bits, to_bits, lt};
ghost use Rattle.std.specs.Float.Ieee.Scale.{finite};
ghost use Rattle.float.specs.Helpers.{abs_of, min_of, max_of};

use std::num::{f64_from_bits_with_nan, f64_to_bits_with_nan};

// x where c holds, else y: a choice between numbers that leaves no branch.
pub fn pick(c: bool, x: f64, y: f64) -> f64
    ensures { result ≡ cond c x y }
{
    if c { x } else { y }
}

// Stays: abs, min and max of our own, here and below: document 01 wants helpers of the port, and std's min and max
// leave open which of two equal numbers they give.
// `f64::abs`. -0 is not below 0, so it has a case of its own.
pub fn abs(x: f64) -> f64
    ensures { result ≡ abs_of x }
{
    pick(x < 0.0, -x, pick(x == 0.0, 0.0, x))
}

// `d.abs() < e`, by two comparisons that do not wait for each other.
pub fn near(d: f64, e: f64) -> bool
    ensures { result ≡ lt (abs_of d) e }
{
    (d < e) & (-e < d)
}

// `f64::min`.
pub fn min(x: f64, y: f64) -> f64
    ensures { result ≡ min_of x y }
{
    pick(x.is_nan(), y, pick(y < x, y, x))
}

// `f64::max`.
pub fn max(x: f64, y: f64) -> f64
    ensures { result ≡ max_of x y }
{
    pick(x.is_nan(), y, pick(x < y, y, x))
}

// `f64::is_finite`.
#[tactic(auto, using(crate::proofs::Cases::std_finite))]
pub fn is_finite(x: f64) -> bool
    ensures { result ≡ finite x }
{
    x.is_finite()
}

// Stays: a name of ours for std's function, here, below and in number_bytes: public, with edits of their own, and named
// as the Rust names what it calls.
// `f64::from_bits`, at every pattern. The built-in one asks for a pattern that is no NaN's.
pub fn from_bits(bits: u64) -> f64
    ensures { result ≡ of_bits binary64 bits }
{
    f64_from_bits_with_nan(bits)
}

// `f64::to_bits`, with one pattern for every NaN.
pub fn to_bits(x: f64) -> u64
    ensures { result ≡ to_bits binary64 x }
{
    f64_to_bits_with_nan(x)
}
