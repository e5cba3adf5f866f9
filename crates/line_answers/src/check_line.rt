// Kind 00: `check` on a record that holds the line's times.
ghost use Rattle.std.specs.Prelude.{◌≡◌};
ghost use Rattle.hex_bytes.specs.Hex.{Filled};
ghost use Rattle.line_kinds.specs.declared.Asks.TheVariants.{OfCheck};
ghost use Rattle.line_kinds.specs.Kinds.{record_places};
ghost use Rattle.line_kinds.specs.Refusals.{number_of};
ghost use Rattle.line_frame.specs.Frame.{byte_at};
ghost use Rattle.line_reply.specs.Reply.{reply_bytes_of, written_of};
ghost use Rattle.line_answers.specs.CheckLine.{checked_of};
ghost use Rattle.line_answers.specs.FrameAnswer.{Answer, frame_answer_of};

use labels::{ControlSigns, ReachedLimits, start_labels};
use line_frame::{CheckNumbers, check_numbers};
use line_kinds::refusals::Refusal;
use line_kinds::{FRAME, RECORD};
use line_questions::choices_fit;
use line_reply::write_record;
use profile::in_place::check;
use row::{set_times, start};

// The reply, of numbers that are read.
fn check_reply(x: CheckNumbers, frame: &[u8; FRAME], reply: &mut [u8]) -> bool
    ensures { record { ok = result; left = reply.new }
        ≡ written_of record_places (reply_bytes_of (checked_of x (byte_at frame.now))) reply.old }
{
    let mut row = start(x.p0, x.v0, x.a0, x.pf, x.vf, x.af);
    set_times(&mut row, x.t);
    let answer = check(
        &mut row,
        start_labels(),
        ControlSigns::from(frame[1]),
        ReachedLimits::from(frame[2]),
        frame[3] == 1,
        x.jf,
        x.v_max,
        x.v_min,
        x.a_max,
        x.a_min,
    );
    write_record(reply, answer, &row)
}

pub fn check_line(frame: &[u8; FRAME], reply: &mut [u8]) -> Result<(), Refusal>
    ensures { record { number = number_of result; places = reply.new }
        ≡ frame_answer_of OfCheck (byte_at frame.now) reply.old }
{
    if !choices_fit(frame) {
        return Err(Refusal::OutOfRange);
    }
    let x = check_numbers(frame).ok_or(Refusal::NotFinite)?;
    if reply.len() < RECORD {
        return Err(Refusal::Places);
    }
    check_reply(x, frame, reply);
    Ok(())
}
