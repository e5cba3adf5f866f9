// Kinds 01 to 05 and 08: a shape on a default profile after `set_boundary`; kinds 11 to 15: the same, with count and
// cause; kinds 06 and 07: the quartics of a shape. The solver and the quartics are worked out once a line.
ghost use Rattle.std.specs.Prelude.{◌≡◌};
ghost use Rattle.hex_bytes.specs.Hex.{Filled};
ghost use Rattle.step2_solver.specs.New.{solver_of, limits_of};
ghost use Rattle.position_third_step2.specs.Shape.{shape_of, fresh};
ghost use Rattle.line_kinds.specs.declared.Asks.TheVariants.{OfQuartics};
ghost use Rattle.line_kinds.specs.Refusals.{number_of};
ghost use Rattle.line_frame.specs.Frame.{byte_at};
ghost use Rattle.profile.specs.Parts.{checked_in};
ghost use Rattle.line_answers.specs.ShapeLine.{shape_places, shape_written};
ghost use Rattle.line_answers.specs.FrameAnswer.{Answer, of_shape, frame_answer_of};

use labels::start_labels;
use line_frame::{first_answer, move_numbers, second_answer};
use line_kinds::refusals::Refusal;
use line_kinds::{CAUSES, FRAME, QUARTICS, RECORD};
use line_questions::{counts_fit, counts_suit};
use line_reply::{write_causes, write_quartics, write_record};
use position_third_step2::in_place::ask;
use profile::in_place::Verdict;
use row::{NUMBERS, start};
use step2_over_roots::RootAnswers;
use step2_quartics::{Quartics, quartics_of};
use step2_solver::{Limits, Move, PositionThirdOrderStep2, Shape};

// What a line wants of a shape: its record, or the record with count and cause.
#[derive(Clone, Copy)]
pub enum Wanted {
    Record,
    Causes,
}

impl Wanted {
    // How many places it takes.
    fn places(self) -> usize
        ensures { result ≡ shape_places self }
    {
        match self {
            Wanted::Record => RECORD,
            Wanted::Causes => CAUSES,
        }
    }

    fn write(self, reply: &mut [u8], answer: Verdict, x: &[f64; NUMBERS]) -> bool
        ensures { record { ok = result; left = reply.new }
            ≡ shape_written self (checked_in x.now answer) reply.old }
    {
        match self {
            Wanted::Record => write_record(reply, answer, x),
            Wanted::Causes => write_causes(reply, answer, x),
        }
    }
}

// The reply, of numbers that are read and worked out.
fn shape_reply(
    wanted: Wanted,
    shape: Shape,
    x: Move,
    s: PositionThirdOrderStep2,
    l: Limits,
    q: Quartics,
    answers: RootAnswers,
    reply: &mut [u8],
) -> bool
    ensures { record { ok = result; left = reply.new }
        ≡ shape_written wanted (shape_of shape s l q answers.uddu answers.udud (fresh x)) reply.old }
{
    let mut row = start(x.p0, x.v0, x.a0, x.pf, x.vf, x.af);
    let answer = ask(shape, s, l, q, answers, &mut row, start_labels());
    wanted.write(reply, answer, &row)
}

pub fn shape_line(
    wanted: Wanted,
    shape: Shape,
    frame: &[u8; FRAME],
    reply: &mut [u8],
) -> Result<(), Refusal>
    ensures { record { number = number_of result; places = reply.new }
        ≡ frame_answer_of (of_shape wanted shape) (byte_at frame.now) reply.old }
{
    if !counts_fit(shape, frame) {
        return Err(Refusal::OutOfRange);
    }
    let x = move_numbers(frame).ok_or(Refusal::NotFinite)?;
    let s = x.solver();
    let l = x.limits();
    let q = quartics_of(shape, s, l);
    if !counts_suit(shape, q, frame) {
        return Err(Refusal::RootAnswers);
    }
    if reply.len() < wanted.places() {
        return Err(Refusal::Places);
    }
    let answers = RootAnswers {
        uddu: first_answer(frame),
        udud: second_answer(frame),
    };
    shape_reply(wanted, shape, x, s, l, q, answers, reply);
    Ok(())
}

pub fn quartics_line(shape: Shape, frame: &[u8; FRAME], reply: &mut [u8]) -> Result<(), Refusal>
    ensures { record { number = number_of result; places = reply.new }
        ≡ frame_answer_of (OfQuartics shape) (byte_at frame.now) reply.old }
{
    let x = move_numbers(frame).ok_or(Refusal::NotFinite)?;
    if reply.len() < QUARTICS {
        return Err(Refusal::Places);
    }
    let q = quartics_of(shape, x.solver(), x.limits());
    write_quartics(reply, q.uddu, q.udud);
    Ok(())
}
