// The root of a finite f64 above zero, from bits to bits. The number is m * 2^k of the smallest
// f64, with m below 2^53 and, where k is not 0, at least 2^52: its bits are k * 2^52 + m.
ghost use Rattle.std.specs.Prelude.{◌<◌};
ghost use Rattle.sqrt.specs.Steps.{Digits, RootBits};

use super::integer::root54;

// 53 digits, and the power of two that they are to be multiplied with; it counts from 2^-1022 of the smallest f64.
#[derive(Clone, Copy)]
struct Number {
    q: u64,
    e: u64,
}

#[tactic(auto, using(crate::proofs::Shifted::in_digits))]
fn parts(bits: u64) -> Number
    requires { 0 < bits }
    ensures { Digits bits result.q result.e }
{
    if bits < 0x10_0000_0000_0000 {
        // a subnormal number has fewer than 53 digits: its leading zeros bring it up to 53
        let s = u64::leading_zeros(bits) - 11;
        Number {
            q: bits << s,
            e: 1022 - s as u64,
        }
    } else {
        Number {
            q: bits % 0x10_0000_0000_0000 + 0x10_0000_0000_0000,
            e: bits / 0x10_0000_0000_0000 + 1021,
        }
    }
}

// The bits of the nearest f64 to the root.
#[tactic(auto, using(crate::proofs::Shifted::shifted_radicand))]
pub fn root_bits(bits: u64) -> u64
    requires { (0 < bits) × (bits < 0x7ff0_0000_0000_0000) }
    ensures { RootBits bits result }
{
    let x = parts(bits);
    // an odd power of two leaves one factor 2 under the root
    let a = x.q << (x.e % 2);
    // the last of the root's 54 digits rounds the other 53: no root is halfway between two f64s
    x.e / 2 * 0x10_0000_0000_0000 + (root54(a) + 1) / 2
}
