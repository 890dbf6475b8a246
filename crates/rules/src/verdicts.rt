// Verdicts by the paper's numbers.
ghost use Rattle.std.specs.Prelude.{◌≡◌};
ghost use Rattle.rules.specs.Verdicts.{Numbers as Triple, refusal_numbers, numbers as outcome_numbers};

use crate::{Numbers, Outcome, Refusal};

// A verdict's number with its two details.
fn numbered(number: u8, first: u16, second: u16) -> Numbers
    ensures { ◌≡◌ {A = Triple} (result.number, result.first, result.second) (number, first, second) }
{
    Numbers {
        number,
        first,
        second,
    }
}

// The number and details of a refusal.
impl From<Refusal> for Numbers {
    ghost from_gives = { λ r n. (n.number, n.first, n.second) ≡ refusal_numbers r };

    fn from(r: Refusal) -> Numbers {
        match r {
            Refusal::NotABook => numbered(1, 0, 0),
            Refusal::Unreadable => numbered(2, 0, 0),
            Refusal::UnknownKind => numbered(3, 0, 0),
            Refusal::WrongMap { missing, unwanted } => numbered(4, missing as u16, unwanted as u16),
            Refusal::WrongLength => numbered(5, 0, 0),
            Refusal::OutOfRange { bit } => numbered(6, bit as u16, 0),
            Refusal::SameAccount => numbered(7, 0, 0),
            Refusal::SetupShape => numbered(8, 0, 0),
            Refusal::SetupValue { offset } => numbered(9, offset, 0),
            Refusal::BufferShort => numbered(10, 0, 0),
            Refusal::WrongPhase => numbered(11, 0, 0),
            Refusal::BatchOpen => numbered(12, 0, 0),
            Refusal::NoBatch => numbered(13, 0, 0),
            Refusal::AlreadyPending => numbered(14, 0, 0),
            Refusal::RowsFull => numbered(15, 0, 0),
            Refusal::NoSuchRow => numbered(16, 0, 0),
            Refusal::NotMirrored => numbered(17, 0, 0),
            Refusal::MarginBroken { hour } => numbered(18, hour as u16, 0),
            Refusal::Uncovered => numbered(19, 0, 0),
            Refusal::SchedulesFull => numbered(20, 0, 0),
            Refusal::StripCount => numbered(21, 0, 0),
            Refusal::StripTwins => numbered(22, 0, 0),
            Refusal::NoStandingAsk => numbered(23, 0, 0),
        }
    }
}

// The number and details of a verdict: 0 is acceptance.
impl From<Result<u16, Refusal>> for Numbers {
    ghost from_gives = { λ verdict n. (n.number, n.first, n.second) ≡ outcome_numbers verdict };

    fn from(verdict: Result<u16, Refusal>) -> Numbers {
        match verdict {
            Ok(number) => numbered(0, number, 0),
            Err(r) => r.into(),
        }
    }
}

// The number and details of a call's answer.
impl From<Outcome> for Numbers {
    ghost from_gives = { λ o n. (n.number, n.first, n.second) ≡ outcome_numbers o.verdict };

    fn from(o: Outcome) -> Numbers {
        o.verdict.into()
    }
}
