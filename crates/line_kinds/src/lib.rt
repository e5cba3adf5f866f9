// The kinds of line: one table, which the questions, the replies and the line program read.
#![tactic(auto)]

pub mod refusals;

ghost use Rattle.std.specs.Prelude.{◌≡◌};
ghost use Rattle.line_kinds.specs.Kinds.{takes_roots_of, row_of};

use step2_solver::Shape;

// The bytes of the longest frame, the characters of the longest line, and the places of the longest reply.
pub const FRAME: usize = 148;

pub const LINE: usize = 2 * FRAME;

pub const REPLY: usize = CAUSES;

// The places of a record, of a record with count and cause, and of two quartics.
pub const RECORD: usize = 728;

pub const CAUSES: usize = RECORD + 4;

pub const QUARTICS: usize = 228;

// The most characters of an answer for each character of its line, the line feeds counted.
pub const SPREAD: usize = 4;

// What a line asks.
#[derive(Clone, Copy)]
pub enum Asks {
    OfCheck,
    OfShape(Shape),
    OfQuartics(Shape),
    OfCauses(Shape),
}

// The bytes of a frame, the places of its reply, and what it asks.
#[derive(Clone, Copy)]
pub struct Row {
    pub bytes: usize,
    pub places: usize,
    pub asks: Asks,
}

impl Row {
    fn new(bytes: usize, places: usize, asks: Asks) -> Row
        ensures { result ≡ record { bytes = bytes; places = places; asks = asks } }
    {
        Row {
            bytes,
            places,
            asks,
        }
    }
}

// Whether the shape tries the roots of quartics, so that a line has their answers.
// Stays: a name for one `matches!`, public with a promise and edits of its own, like `is_yes` of a cause.
pub fn takes_roots(shape: Shape) -> bool
    ensures { result ≡ takes_roots_of shape }
{
    matches!(shape, Shape::Acc1Vel | Shape::Acc0Vel)
}

// The row of a kind, where there is such a kind.
// Stays: the kind is a byte and no enum, since this table is where a line's byte becomes what it asks.
#[tactic(auto, unfolding(crate::specs::Kinds::row_of))]
pub fn row_of(kind: u8) -> Option<Row>
    ensures { result ≡ row_of kind }
{
    match kind {
        0x00 => Some(Row::new(148, RECORD, Asks::OfCheck)),
        0x01 => Some(Row::new(97, RECORD, Asks::OfShape(Shape::Acc0Acc1Vel))),
        0x02 => Some(Row::new(147, RECORD, Asks::OfShape(Shape::Acc1Vel))),
        0x03 => Some(Row::new(147, RECORD, Asks::OfShape(Shape::Acc0Vel))),
        0x04 => Some(Row::new(97, RECORD, Asks::OfShape(Shape::Acc0Acc1))),
        0x05 => Some(Row::new(97, RECORD, Asks::OfShape(Shape::Acc0))),
        0x06 => Some(Row::new(97, QUARTICS, Asks::OfQuartics(Shape::Acc1Vel))),
        0x07 => Some(Row::new(97, QUARTICS, Asks::OfQuartics(Shape::Acc0Vel))),
        0x08 => Some(Row::new(97, RECORD, Asks::OfShape(Shape::RestToRest))),
        0x11 => Some(Row::new(97, CAUSES, Asks::OfCauses(Shape::Acc0Acc1Vel))),
        0x12 => Some(Row::new(147, CAUSES, Asks::OfCauses(Shape::Acc1Vel))),
        0x13 => Some(Row::new(147, CAUSES, Asks::OfCauses(Shape::Acc0Vel))),
        0x14 => Some(Row::new(97, CAUSES, Asks::OfCauses(Shape::Acc0Acc1))),
        0x15 => Some(Row::new(97, CAUSES, Asks::OfCauses(Shape::Acc0))),
        _ => None,
    }
}
