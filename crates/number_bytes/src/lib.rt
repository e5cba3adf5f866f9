// Rust's `u64::from_be_bytes` and `f64::to_be_bytes`: eight bytes, the highest first;
// and whether bits are those of a finite number.
#![tactic(auto)]

ghost use Rattle.std.specs.Prelude.{◌≡◌};
ghost use Rattle.std.specs.Float.{binary64};
ghost use Rattle.std.specs.Float.Ieee.{of_bits};
ghost use Rattle.std.specs.Float.Ieee.Scale.{finite};
ghost use Rattle.number_bytes.specs.Bytes.{word_of, number_bytes_of};

pub fn u64_from_be_bytes(b: [u8; 8]) -> u64
    ensures { result ≡ word_of b }
{
    u64::from_be_bytes(b)
}

pub fn to_be_bytes(x: f64) -> [u8; 8]
    ensures { result ≡ number_bytes_of x }
{
    float::to_bits(x).to_be_bytes()
}

// `f64::is_finite` of the number with these bits: below infinity's, the sign left out.
// Stays: infinity's bits as a number, since no number is made of the bits here.
pub fn finite_bits(bits: u64) -> bool
    ensures { result ≡ finite (of_bits binary64 bits) }
{
    bits % 0x8000_0000_0000_0000 < 0x7FF0_0000_0000_0000
}
