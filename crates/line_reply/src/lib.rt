// A reply's characters, into lent places.
#![tactic(auto)]

mod quartics;
mod record;
mod stores;

ghost use Rattle.std.specs.Prelude.{◌≡◌, ◌++◌};
ghost use Rattle.profile.specs.Parts.{checked_in};
ghost use Rattle.line_kinds.specs.Kinds.{record_places, causes_places, quartics_places};
ghost use Rattle.line_reply.specs.Reply.{reply_bytes_of, causes_bytes_of, quartic_bytes, written_of};

use hex_bytes::encode;
use line_kinds::{CAUSES, RECORD};
use profile::in_place::Verdict;
use quartics::put_quartics;
use record::put_record;
use row::NUMBERS;

// The characters of a record's bytes.
fn send(bytes: &[u8; 364], reply: &mut [u8]) -> bool
    ensures { record { ok = result; left = reply.new }
        ≡ written_of record_places bytes.now reply.old }
{
    encode(bytes, reply)
}

// The reply of `check` and of a shape; no, and nothing touched, where the places are fewer.
pub fn write_record(reply: &mut [u8], answer: Verdict, x: &[f64; NUMBERS]) -> bool
    ensures { record { ok = result; left = reply.new }
        ≡ written_of record_places (reply_bytes_of (checked_in x.now answer)) reply.old }
{
    let mut bytes = [0u8; 364];
    put_record(&mut bytes, answer, x);
    send(&bytes, reply)
}

// The same, and after it the count of the calls of `check` and the cause of the last one.
pub fn write_causes(reply: &mut [u8], answer: Verdict, x: &[f64; NUMBERS]) -> bool
    ensures { record { ok = result; left = reply.new }
        ≡ written_of causes_places (causes_bytes_of (checked_in x.now answer)) reply.old }
{
    if reply.len() < CAUSES {
        return false;
    }
    // Lent as a slice, so that the prover knows how long it is.
    let _all = &x[..];
    write_record(reply, answer, x);
    let labels = answer.labels;
    let two = [labels.calls, u8::from(labels.cause)];
    encode(&two, &mut reply[RECORD..])
}

// The reply of two quartics; no, and nothing touched, where the places are fewer.
pub fn write_quartics(reply: &mut [u8], uddu: [f64; 4], udud: [f64; 4]) -> bool
    ensures { record { ok = result; left = reply.new }
        ≡ written_of quartics_places (quartic_bytes uddu ++ quartic_bytes udud) reply.old }
{
    let mut bytes = [0u8; 114];
    put_quartics(&mut bytes, uddu, udud);
    encode(&bytes, reply)
}
