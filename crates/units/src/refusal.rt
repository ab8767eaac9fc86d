// Why a call is refused. Document 01's table says exactly when each is given; specs/Refusals has the numbers of all, and 0 of
// a call that is done, for the definitions and for C.
ghost use Rattle.std.specs.Prelude.{◌≡◌};
ghost use Rattle.units.specs.Refusals as Refusals;

#[derive(Clone, Copy, Debug, PartialEq, Eq)]
pub enum Refusal {
    Settings = 1,
    Short = 2,
    State = 3,
    Page = 4,
    Kind = 5,
    Span = 6,
    NoSlot = 7,
    NoPage = 8,
    LastTick = 9,
    NoPlace = 10,
    Foreign = 11,
    Damaged = 12,
    Lag = 13,
    Image = 14,
}

impl From<Refusal> for u32 {
    ghost from_gives = { λ refusal n. n ≡ Refusals.code refusal };

    fn from(refusal: Refusal) -> u32 {
        refusal as u32
    }
}

// The number of what a call answers.
pub fn number(answer: Result<(), Refusal>) -> u32
    ensures { result ≡ Refusals.number answer }
{
    match answer {
        Ok(()) => 0,
        Err(refusal) => u32::from(refusal),
    }
}
