// A line's frame, zeros after its end: the numbers in it by their names.
#![tactic(auto)]

mod reading;

ghost use Rattle.std.specs.Prelude.{◌≡◌, true, ◌+◌, ◌≤◌};
ghost use Rattle.line_kinds.specs.Kinds.{frame_most};
ghost use Rattle.line_frame.specs.Frame.{byte_at};
ghost use Rattle.line_frame.specs.Numbers.{check_numbers_of, check_finite, finite_check_of};
ghost use Rattle.line_frame.specs.Numbers.{move_of, move_finite, finite_move_of};
ghost use Rattle.line_frame.specs.Numbers.{root_answer_of, first_answer_of, second_answer_of};

use line_kinds::FRAME;
use reading::{all_finite, finite_at, number_at, times};
use roots::{RootAnswer, Three};
use step2_solver::Move;

// Kind 00's.
#[derive(Clone, Copy, Default)]
pub struct CheckNumbers {
    pub t: [f64; 7],
    pub p0: f64,
    pub v0: f64,
    pub a0: f64,
    pub pf: f64,
    pub vf: f64,
    pub af: f64,
    pub jf: f64,
    pub v_max: f64,
    pub v_min: f64,
    pub a_max: f64,
    pub a_min: f64,
}

#[tactic(auto, unfolding(crate::specs::Numbers::move_of))]
fn move_at(frame: &[u8; FRAME]) -> Move
    requires { move_finite (byte_at frame.now) ≡ true }
    ensures { result ≡ move_of (byte_at frame.now) }
{
    Move {
        tf: finite_at(frame, 1),
        p0: finite_at(frame, 9),
        v0: finite_at(frame, 17),
        a0: finite_at(frame, 25),
        pf: finite_at(frame, 33),
        vf: finite_at(frame, 41),
        af: finite_at(frame, 49),
        v_max: finite_at(frame, 57),
        v_min: finite_at(frame, 65),
        a_max: finite_at(frame, 73),
        a_min: finite_at(frame, 81),
        j_max: finite_at(frame, 89),
    }
}

#[tactic(auto, unfolding(crate::specs::Numbers::check_numbers_of))]
fn check_at(frame: &[u8; FRAME]) -> CheckNumbers
    requires { check_finite (byte_at frame.now) ≡ true }
    ensures { result ≡ check_numbers_of (byte_at frame.now) }
{
    CheckNumbers {
        t: times(frame),
        p0: finite_at(frame, 60),
        v0: finite_at(frame, 68),
        a0: finite_at(frame, 76),
        pf: finite_at(frame, 84),
        vf: finite_at(frame, 92),
        af: finite_at(frame, 100),
        jf: finite_at(frame, 108),
        v_max: finite_at(frame, 116),
        v_min: finite_at(frame, 124),
        a_max: finite_at(frame, 132),
        a_min: finite_at(frame, 140),
    }
}

// Stays: two functions, this and `move_numbers`, since the two structs have other fields at other places of the frame.
// Kind 00's numbers, where the eleven after the times are finite; the times may be any.
#[tactic(auto, unfolding(crate::specs::Numbers::finite_check_of))]
pub fn check_numbers(frame: &[u8; FRAME]) -> Option<CheckNumbers>
    ensures { result ≡ finite_check_of (byte_at frame.now) }
{
    if all_finite(frame, 60, 11) {
        Some(check_at(frame))
    } else {
        None
    }
}

// The other kinds', where the twelve numbers after the kind are finite.
// Inlined: it has two callers, and would else hand the numbers over in memory.
#[inline(always)]
#[tactic(auto, unfolding(crate::specs::Numbers::finite_move_of))]
pub fn move_numbers(frame: &[u8; FRAME]) -> Option<Move>
    ensures { result ≡ finite_move_of (byte_at frame.now) }
{
    if all_finite(frame, 1, 12) {
        Some(move_at(frame))
    } else {
        None
    }
}

#[inline(always)]
#[tactic(auto, unfolding(crate::specs::Numbers::root_answer_of))]
fn root_answer(frame: &[u8; FRAME], at: usize) -> RootAnswer
    requires { at + 25 ≤ frame_most }
    ensures { result ≡ root_answer_of (byte_at frame.now) at }
{
    let count = frame[at];
    if count == 0 {
        return RootAnswer::CubeRoot(number_at(frame, at + 1));
    }
    RootAnswer::Resolved(
        count,
        Three {
            x0: number_at(frame, at + 1),
            x1: number_at(frame, at + 9),
            x2: number_at(frame, at + 17),
        },
    )
}

// Stays: two by name, since each is public with a promise of its own (`first_answer_of`, `second_answer_of`); what they
// share is `root_answer`, which has a `requires` and so is not public.
// The answer for UDDU's quartic.
pub fn first_answer(frame: &[u8; FRAME]) -> RootAnswer
    ensures { result ≡ first_answer_of (byte_at frame.now) }
{
    root_answer(frame, 97)
}

// The answer for UDUD's.
pub fn second_answer(frame: &[u8; FRAME]) -> RootAnswer
    ensures { result ≡ second_answer_of (byte_at frame.now) }
{
    root_answer(frame, 122)
}
