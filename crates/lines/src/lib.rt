// The line entry: one frame a line, in hexadecimal digits, answered by a reply or by the number of
// the first question that it fails.
#![tactic(auto)]

ghost use Rattle.std.specs.Prelude.{◌≡◌};
ghost use Rattle.line_kinds.specs.Refusals.{number_of};
ghost use Rattle.lines.specs.Answer.{answer_of, filled_of, outcome_of};

use hex_bytes::decode;
use line_answers::reply_to;
use line_kinds::refusals::Refusal;
use line_kinds::{FRAME, row_of};
use line_questions::length_fits;

// How many of the lent places the reply fills, or why there is none.
pub fn answered(request: &[u8], reply: &mut [u8]) -> Result<usize, Refusal>
    ensures { record { number = number_of result; filled = filled_of result; places = reply.new }
        ≡ outcome_of request.now reply.old }
{
    let n = request.len();
    if !length_fits(n) {
        return Err(Refusal::Length);
    }
    let mut frame = [0u8; FRAME];
    if !decode(request, &mut frame) {
        return Err(Refusal::Digits);
    }
    let row = row_of(frame[0]).ok_or(Refusal::Kind)?;
    if n / 2 != row.bytes {
        return Err(Refusal::Bytes);
    }
    reply_to(Some(row.asks), &frame, reply).and(Ok(row.places))
}

// Document 01's number of an answer: 0 of a reply.
fn number(answer: Result<usize, Refusal>) -> u32
    ensures { result ≡ number_of answer }
{
    match answer {
        Ok(_) => 0,
        Err(refusal) => u32::from(refusal),
    }
}

// Stays: a plain number, here and below, since `answer_of` and `outcome_of` are the C call's promise (lines_c).
pub fn answer_line(request: &[u8], reply: &mut [u8]) -> u32
    ensures { record { number = result; places = reply.new }
        ≡ answer_of request.now reply.old }
{
    number(answered(request, reply))
}

// The same with the count, for a host that does not know the kinds.
pub fn answer_counted(request: &[u8], reply: &mut [u8], filled: &mut usize) -> u32
    ensures { record { number = result; filled = filled.new; places = reply.new }
        ≡ outcome_of request.now reply.old }
{
    let answer = answered(request, reply);
    *filled = answer.unwrap_or(0);
    number(answer)
}
