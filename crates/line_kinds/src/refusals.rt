// What a line is refused for: the first question with a no, under its number.
ghost use Rattle.std.specs.Prelude.{◌≡◌};
ghost use Rattle.line_kinds.specs.Refusals.{refusal_number_of};

#[derive(Clone, Copy)]
pub enum Refusal {
    Length = 1,
    Digits = 2,
    Kind = 3,
    Bytes = 4,
    OutOfRange = 5,
    NotFinite = 6,
    RootAnswers = 7,
    Places = 8,
}

impl From<Refusal> for u32 {
    ghost from_gives = { λ refusal n. n ≡ refusal_number_of refusal };

    fn from(refusal: Refusal) -> u32 {
        refusal as u32
    }
}
