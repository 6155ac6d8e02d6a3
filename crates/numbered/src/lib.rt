// What an operation on a text answers, in numbers: for C, and for the line program.
#![tactic(auto)]

ghost use Rattle.std.specs.Prelude.{◌≡◌};
ghost use Rattle.promise.specs.Outcome.{Outcome.given, write_outcome, width_outcome};
ghost use Rattle.numbered.specs.Numbered.{bare_answer, refusal_numbers, numbered};

use record::{Refusal, WidthAnswer, WriteAnswer};

// The refusal's number, 0 where the text was accepted; the place; and the length or width, 0 where it was refused.
#[repr(C)]
#[derive(Clone, Copy)]
pub struct Answer {
    pub number: u64,
    pub place: u64,
    pub value: u64,
}

// No length and no width.
pub fn bare(number: u64, place: u64) -> Answer
    ensures { result ≡ bare_answer number place }
{
    Answer {
        number,
        place,
        value: 0,
    }
}

impl From<Refusal> for Answer {
    ghost from_gives = { λ r a. a ≡ refusal_numbers r };

    fn from(r: Refusal) -> Answer {
        match r {
            Refusal::TooLong => bare(1, 0),
            Refusal::NotInGrammar => bare(2, 0),
            Refusal::DoesNotFit(place) => bare(3, place as u64),
            Refusal::BadSpan => bare(4, 0),
            Refusal::NoText => bare(5, 0),
            Refusal::NoRoom => bare(6, 0),
            Refusal::NoWidth => bare(7, 0),
            Refusal::BadLine => bare(8, 0),
        }
    }
}

// A length or a width.
fn of_value(value: u64) -> Answer
    ensures { result ≡ numbered (given value) }
{
    Answer {
        number: 0,
        place: 0,
        value,
    }
}

impl From<WriteAnswer> for Answer {
    ghost from_gives = { λ w a. a ≡ numbered (write_outcome w) };

    fn from(w: WriteAnswer) -> Answer {
        match w {
            Ok(n) => of_value(n as u64),
            Err(r) => r.into(),
        }
    }
}

impl From<WidthAnswer> for Answer {
    ghost from_gives = { λ w a. a ≡ numbered (width_outcome w) };

    fn from(w: WidthAnswer) -> Answer {
        match w {
            Ok(n) => of_value(n),
            Err(r) => r.into(),
        }
    }
}
