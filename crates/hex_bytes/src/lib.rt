// Characters to bytes and back: digits 0-9 and A-F, two a byte, the higher half first.
// No table: each digit is worked out, so that the loops run on many characters at once.
#![tactic(auto)]

ghost use Rattle.std.specs.Prelude.{◌≡◌, true, cond, map, ℕ, ◌+◌, ◌*◌, ◌/◌, ◌%◌, ◌≤◌, ◌<◌, ltb, length, get_or, take};
ghost use Rattle.hex_bytes.specs.Hex.{Filled, is_digit_of, all_digits_of, value_of, bytes_of, digit_of, fill};
ghost use Rattle.hex_bytes.specs.Hex.{decode_of, encode_of};
ghost use Rattle.hex_bytes.specs.Steps.{nibbles_of};

// What a digit stands for; 0 for any other character.
pub fn value(c: u8) -> u8
    ensures { result ≡ value_of c }
{
    match c {
        b'0'..=b'9' => c - b'0',
        b'A'..=b'F' => c - b'A' + 10,
        _ => 0,
    }
}

// Less 48, which is 0, round 256, a digit is at most 22, and less 65, which is A, at most 248; no other character is
// both. So the largest of each tells.
fn all_digits(line: &[u8]) -> bool
    ensures { result ≡ all_digits_of line.now }
{
    let mut less_48 = 0u8;
    let mut less_65 = 0u8;
    for &c in line {
        less_48 = less_48.max(c.wrapping_sub(b'0'));
        less_65 = less_65.max(c.wrapping_sub(b'A'));
    }
    (less_48 <= 22) & (less_65 <= 248)
}

// Two characters in one number, the first in its lower half. The compiler reads both in one step where they are at 0
// and 1 of a part, and where the number is made before any other sum: hence a function of its own.
fn side_by_side(first: u8, second: u8) -> u16
    ensures { result ≡ first + second * 0x100 }
{
    (first as u16) + (second as u16) * 0x100
}

// The byte of two digits side by side. Less 48, a letter has 16 in it and a decimal has not; a letter is then 7 above
// its value.
fn byte(digits: u16) -> u8
    requires digits_value { is_digit_of (digits % 0x100) ≡ true }
    requires digits_value_2 { is_digit_of (digits / 0x100) ≡ true }
    ensures { result ≡ 16 * value_of (digits % 0x100) + value_of (digits / 0x100) }
{
    let both = digits - 0x3030;
    let letters = both / 0x10 % 2 + both / 0x1000 % 2 * 0x100;
    let values = both - 7 * letters;
    ((values + values % 0x10 * 0x1000) / 0x100) as u8
}

// The bytes of digits.
// Stays: an index into the line, here and in `any_pairs`. Tried: the places by `iter_mut` under `zip` with
// `chunks_exact(2)`; an invariant has no name for them there, so that nothing is known of them after the loop.
fn pairs(line: &[u8], bytes: &mut [u8])
    requires digits { all_digits_of line.now ≡ true }
    requires places { length bytes.old ≡ length line.now / 2 }
    ensures { bytes.new ≡ bytes_of line.now }
{
    for (i, place) in bytes.iter_mut().enumerate() {
        let part = &line[2 * i..];
        *place = byte(side_by_side(part[0], part[1]));
    }
}

// The bytes of any characters. No line that is answered comes here.
fn any_pairs(line: &[u8], bytes: &mut [u8])
    requires { length bytes.old ≡ length line.now / 2 }
    ensures { bytes.new ≡ bytes_of line.now }
{
    for (i, place) in bytes.iter_mut().enumerate() {
        *place = 16 * value(line[2 * i]) + value(line[2 * i + 1]);
    }
}

// What lies between the digits 9 and A, from A on. The test is signed: the machine has it for many bytes in one step,
// the other in two.
fn gap(n: u8) -> u8
    requires { n < 16 }
    ensures { result ≡ cond (ltb n 10) 0 7 }
{
    if (n as i8) < 10 { 0 } else { 7 }
}

fn digit(n: u8) -> u8
    requires { n < 16 }
    ensures { result ≡ digit_of n }
{
    n + b'0' + gap(n)
}

// Stays: yes or no, here, in `encode` and in line_reply's three: the answer to a question, with no value beside it and
// no error to tell; each promises what all lent places hold after a no (`decode_of`, `encode_of`, `written_of`).
#[tactic(auto, using(crate::proofs::Turns::decoded), unfolding(crate::specs::Hex::decode_of))]
pub fn decode(line: &[u8], bytes: &mut [u8]) -> bool
    ensures { record { ok = result; left = bytes.new } ≡ decode_of line.now bytes.old }
{
    let n = line.len();
    if (n % 2 == 1) | (bytes.len() < n / 2) {
        return false;
    }
    let places = &mut bytes[..n / 2];
    if all_digits(line) {
        pairs(line, places);
        return true;
    }
    any_pairs(line, places);
    false
}

// The values of the bytes' digits.
// Stays: an index into the values, since std says nothing of what a slice ends as under `as_chunks_mut`.
fn nibbles(bytes: &[u8], values: &mut [u8])
    requires { length values.old ≡ 2 * length bytes.now }
    ensures { values.new ≡ nibbles_of bytes.now }
{
    for (i, &b) in bytes.iter().enumerate() {
        values[2 * i] = b / 16;
        values[2 * i + 1] = b % 16;
    }
}

// From values to digits.
fn spell(places: &mut [u8])
    requires { (k : ℕ) → k < length places.old → get_or places.old k 0 < 16 }
    ensures { places.new ≡ map digit_of places.old }
{
    for place in places.iter_mut() {
        *place = digit(*place);
    }
}

#[tactic(auto, using(crate::proofs::Turns::encoding), unfolding(crate::specs::Hex::encode_of))]
pub fn encode(bytes: &[u8], reply: &mut [u8]) -> bool
    ensures { record { ok = result; left = reply.new }
        ≡ encode_of bytes.now reply.old }
{
    let n = bytes.len();
    if reply.len() / 2 < n {
        return false;
    }
    let places = &mut reply[..2 * n];
    nibbles(bytes, places);
    spell(places);
    true
}
