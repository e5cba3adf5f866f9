// The answer to a frame of the length of its kind, by what it asks.
#![tactic(auto)]

mod check_line;
mod shape_line;

ghost use Rattle.std.specs.Prelude.{◌≡◌};
ghost use Rattle.line_kinds.specs.Refusals.{number_of};
ghost use Rattle.line_frame.specs.Frame.{byte_at};
ghost use Rattle.line_answers.specs.FrameAnswer.{Answer, frame_answer_in};

use check_line::check_line;
use line_kinds::refusals::Refusal;
use line_kinds::{Asks, FRAME};
use shape_line::{Wanted, quartics_line, shape_line};

// None for a frame of no kind, which asks nothing.
pub fn reply_to(asks: Option<Asks>, frame: &[u8; FRAME], reply: &mut [u8]) -> Result<(), Refusal>
    ensures { record { number = number_of result; places = reply.new }
        ≡ frame_answer_in asks (byte_at frame.now) reply.old }
{
    match asks {
        None => Ok(()),
        Some(Asks::OfCheck) => check_line(frame, reply),
        Some(Asks::OfShape(shape)) => shape_line(Wanted::Record, shape, frame, reply),
        Some(Asks::OfQuartics(shape)) => quartics_line(shape, frame, reply),
        Some(Asks::OfCauses(shape)) => shape_line(Wanted::Causes, shape, frame, reply),
    }
}
