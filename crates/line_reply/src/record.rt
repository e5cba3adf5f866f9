// The reply of kinds 00 to 05 and 08: a verdict and the whole record.
ghost use Rattle.std.specs.Prelude.{◌≡◌};
ghost use Rattle.std.proofs.lemmas.List.Edits.{sets};
ghost use Rattle.profile.specs.Parts.{checked_in};
ghost use Rattle.line_reply.specs.Reply.{head_of, reply_bytes_of};

use super::stores::put_row;
use profile::in_place::Verdict;
use row::NUMBERS;

// Verdict, label, direction and signs.
#[tactic(auto, unfolding(crate::specs::Reply::head_of))]
fn put_head(bytes: &mut [u8; 364], answer: Verdict)
    ensures { bytes.new ≡ sets bytes.old 0 (head_of answer) }
{
    let labels = answer.labels;
    bytes[0] = u8::from(answer.ok);
    bytes[1] = u8::from(labels.limits);
    bytes[2] = u8::from(labels.direction);
    bytes[3] = u8::from(labels.control_signs);
}

// The head, and the six rows.
// Stays: six calls, since a loop over all 45 numbers takes longer.
pub fn put_record(bytes: &mut [u8; 364], answer: Verdict, x: &[f64; NUMBERS])
    ensures { bytes.new ≡ reply_bytes_of (checked_in x.now answer) }
{
    put_head(bytes, answer);
    let all = &x[..];
    put_row(bytes, 4, &all[0..7]);
    put_row(bytes, 60, &all[7..14]);
    put_row(bytes, 116, &all[14..21]);
    put_row(bytes, 172, &all[21..29]);
    put_row(bytes, 236, &all[29..37]);
    put_row(bytes, 300, &all[37..45]);
}
