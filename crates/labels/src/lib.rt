// The labels of a record: which limits a move reaches, its direction and its control signs; as document 01's numbers,
// and back. With them what the calls of `check` came to: how many there were, and the cause of the last.
#![tactic(auto)]

pub mod causes;
pub mod tests;

ghost use Rattle.std.specs.Prelude.{◌≡◌};
ghost use Rattle.labels.specs.Labels.{label_number_of, direction_number_of, signs_number_of};
ghost use Rattle.labels.specs.Labels.{label_of, signs_of, start_labels_of, marked_labels_of};

use causes::Cause;

// Stays: None among the labels: it is the Rust's, and a reply has its number 7 like the others' (`label_number_of`).
#[derive(Clone, Copy)]
pub enum ReachedLimits {
    Acc0Acc1Vel,
    Vel,
    Acc0,
    Acc1,
    Acc0Acc1,
    Acc0Vel,
    Acc1Vel,
    None,
}

#[derive(Clone, Copy)]
pub enum Direction {
    UP,
    DOWN,
}

#[derive(Clone, Copy)]
pub enum ControlSigns {
    UDDU,
    UDUD,
}

// With count and cause at the end a line of kinds 01 to 05 takes one to two in a hundred longer.
#[derive(Clone, Copy)]
pub struct Labels {
    pub calls: u8,
    pub cause: Cause,
    pub limits: ReachedLimits,
    pub direction: Direction,
    pub control_signs: ControlSigns,
}

// From 7 on, None.
impl From<u8> for ReachedLimits {
    ghost from_gives = { λ n l. l ≡ label_of n };

    fn from(n: u8) -> ReachedLimits {
        match n {
            0 => ReachedLimits::Acc0Acc1Vel,
            1 => ReachedLimits::Vel,
            2 => ReachedLimits::Acc0,
            3 => ReachedLimits::Acc1,
            4 => ReachedLimits::Acc0Acc1,
            5 => ReachedLimits::Acc0Vel,
            6 => ReachedLimits::Acc1Vel,
            _ => ReachedLimits::None,
        }
    }
}

// From 1 on, UDUD.
impl From<u8> for ControlSigns {
    ghost from_gives = { λ n s. s ≡ signs_of n };

    fn from(n: u8) -> ControlSigns {
        match n {
            0 => ControlSigns::UDDU,
            _ => ControlSigns::UDUD,
        }
    }
}

// Document 01's numbers are those of the enums' order.
impl From<ReachedLimits> for u8 {
    ghost from_gives = { λ l n. n ≡ label_number_of l };

    fn from(limits: ReachedLimits) -> u8 {
        limits as u8
    }
}

impl From<Direction> for u8 {
    ghost from_gives = { λ d n. n ≡ direction_number_of d };

    fn from(direction: Direction) -> u8 {
        direction as u8
    }
}

impl From<ControlSigns> for u8 {
    ghost from_gives = { λ s n. n ≡ signs_number_of s };

    fn from(control_signs: ControlSigns) -> u8 {
        control_signs as u8
    }
}

// The labels of `Profile::default()`.
pub fn start_labels() -> Labels
    ensures { result ≡ start_labels_of }
{
    Labels {
        limits: ReachedLimits::None,
        direction: Direction::UP,
        control_signs: ControlSigns::UDDU,
        calls: 0,
        cause: Cause::NoCall,
    }
}

// What a verdict's labels become by a mark: the no of an attempt whose square root does not exist is put down to that,
// whichever test said it.
pub fn marked_labels(marked: bool, ok: bool, was: Labels) -> Labels
    ensures { result ≡ marked_labels_of marked ok was }
{
    if marked & !ok {
        Labels {
            cause: Cause::NoRoot,
            ..was
        }
    } else {
        was
    }
}
