// Numbers and bytes in hexadecimal digits, as the stored lists have them.
#![tactic(auto)]

ghost use Rattle.std.specs.Prelude.{◌≡◌, [], ◌∷◌, ◌≢◌, true, IfOk, IfErr};
ghost use Rattle.std.specs.Io.KnownBytes.{Consumes};
ghost use Rattle.std.specs.IoError.{error_kind};
ghost use Rattle.hex_bytes.specs.Hex.{hex_of};
ghost use Rattle.number_bytes.specs.Bytes.{number_bytes_of};
ghost use Rattle.digits.specs.Digits.{read_of};

use float::from_bits;
use hex_bytes::{decode, encode};
use number_bytes::{to_be_bytes, u64_from_be_bytes};
use std::io;
use std::io::{ErrorKind, Read};

// The number in the sixteen characters from a place on.
pub fn from_digits(line: &[u8], at: usize) -> Option<f64>
    ensures { result ≡ read_of line.now at }
{
    let characters = line.get(at..)?.first_chunk::<16>()?;
    let mut bytes = [0u8; 8];
    if !decode(characters, &mut bytes) {
        return None;
    }
    Some(from_bits(u64_from_be_bytes(bytes)))
}

pub fn to_digits(x: f64) -> [u8; 16]
    ensures { result ≡ hex_of (number_bytes_of x) }
{
    let mut characters = [0u8; 16];
    encode(&to_be_bytes(x), &mut characters);
    characters
}

pub fn byte_to_digits(b: u8) -> [u8; 2]
    ensures { result ≡ hex_of (b ∷ []) }
{
    let mut characters = [0u8; 2];
    encode(&[b], &mut characters);
    characters
}

// Fills `line`, or says that the input ended before.
pub fn read_line<R: Read>(input: &mut R, line: &mut [u8]) -> io::Result<bool>
    ensures filled { IfOk result
        (λ yes. yes ≡ true → Consumes (R.remaining input.old) (R.remaining input.new) line.new) }
    ensures other { IfErr result (λ e. error_kind e ≢ ErrorKind.UnexpectedEof) }
{
    match input.read_exact(line) {
        Ok(()) => Ok(true),
        Err(e) if e.kind() == ErrorKind::UnexpectedEof => Ok(false),
        Err(e) => Err(e),
    }
}
