// Numbers out of a frame's bytes.
ghost use Rattle.std.specs.Prelude.{◌≡◌, true, ◌+◌, ◌*◌, ◌≤◌};
ghost use Rattle.std.specs.Float.Ieee.Scale.{finite};
ghost use Rattle.line_kinds.specs.Kinds.{frame_most};
ghost use Rattle.line_frame.specs.Frame.{byte_at, word_at, number_at, numbers_at, all_finite_of};

use float::from_bits;
use line_kinds::FRAME;
use number_bytes::{finite_bits, u64_from_be_bytes};

#[tactic(auto, using(crate::proofs::Numbers::word_here))]
fn word_at(frame: &[u8; FRAME], at: usize) -> u64
    requires { at + 8 ≤ frame_most }
    ensures { result ≡ word_at (byte_at frame.now) at }
{
    u64_from_be_bytes(*frame[at..].first_chunk::<8>().unwrap())
}

// Stays: that eight places follow is asked of three private functions, here and beside: a type for a place of the frame
// would be made at each of their calls, which give it as a numeral.
pub fn number_at(frame: &[u8; FRAME], at: usize) -> f64
    requires { at + 8 ≤ frame_most }
    ensures { result ≡ number_at (byte_at frame.now) at }
{
    from_bits(word_at(frame, at))
}

// The same for a number that is known to be finite: no test for a NaN.
#[tactic(auto, using(crate::proofs::Numbers::no_nan))]
pub fn finite_at(frame: &[u8; FRAME], at: usize) -> f64
    requires at_bound { at + 8 ≤ frame_most }
    requires at_value { finite (number_at (byte_at frame.now) at) ≡ true }
    ensures { result ≡ number_at (byte_at frame.now) at }
{
    f64::from_bits(word_at(frame, at))
}

// Kind 00's times.
// Stays: seven calls, as in crates/jerks.
pub fn times(frame: &[u8; FRAME]) -> [f64; 7]
    ensures { result ≡ numbers_at (byte_at frame.now) 4 7 }
{
    [
        number_at(frame, 4),
        number_at(frame, 12),
        number_at(frame, 20),
        number_at(frame, 28),
        number_at(frame, 36),
        number_at(frame, 44),
        number_at(frame, 52),
    ]
}

// Whether n numbers from a place on are finite.
pub fn all_finite(frame: &[u8; FRAME], at: usize, n: usize) -> bool
    requires { at + 8 * n ≤ frame_most }
    ensures { result ≡ all_finite_of (numbers_at (byte_at frame.now) at n) }
{
    let (words, _) = frame[at..at + 8 * n].as_chunks::<8>();
    let mut ok = true;
    for word in words {
        ok &= finite_bits(u64_from_be_bytes(*word));
    }
    ok
}
