// Why `check` said no: the cause of a verdict, by the numbers of document 02's Papers 1 and 6, and the count of calls.
ghost use Rattle.std.specs.Prelude.{◌≡◌};
ghost use Rattle.labels.specs.Causes.{cause_number_of, is_yes, counted_of};

// Stays: Yes, NoCall and NoRoot among the causes, no Option of one: document 02 numbers them 0, 12 and 13, and a record
// has each like the others (`cause_number_of`).
#[derive(Clone, Copy)]
pub enum Cause {
    Yes,
    NegativeTime,
    T3,
    T1,
    T5,
    Total,
    VelocityAtZero,
    EndPosition,
    EndVelocity,
    EndAcceleration,
    AccelerationLimit,
    VelocityLimit,
    NoCall,
    NoRoot,
}

// Document 02's numbers are those of the enum's order.
impl From<Cause> for u8 {
    ghost from_gives = { λ c n. n ≡ cause_number_of c };

    fn from(cause: Cause) -> u8 {
        cause as u8
    }
}

pub fn is_yes(cause: Cause) -> bool
    ensures { result ≡ is_yes cause }
{
    matches!(cause, Cause::Yes)
}

// One call more; the count stops at 255, the most that a reply's byte holds.
pub fn counted(calls: u8) -> u8
    ensures { result ≡ counted_of calls }
{
    calls.saturating_add(1)
}
