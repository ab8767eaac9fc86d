// The kinds of page: a byte in the kind table, and the number that grow is given.
ghost use Rattle.recorder.specs.inner.Kinds.{Names};

use units::Refusal;

#[derive(Clone, Copy, Debug, PartialEq, Eq)]
pub enum Kind {
    Metadata = 0,
    Raw = 1,
}

impl TryFrom<u32> for Kind {
    type Error = Refusal;

    ghost try_from_gives = { Names };

    fn try_from(number: u32) -> Result<Kind, Refusal> {
        match number {
            0 => Ok(Kind::Metadata),
            1 => Ok(Kind::Raw),
            _ => Err(Refusal::Kind),
        }
    }
}
