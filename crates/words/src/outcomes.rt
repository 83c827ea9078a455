// The paper's number of an outcome, and the length or count that goes with it (document 01, Outcomes). They have names, and are no `From`: what is told of an
// outcome or a reason is two numbers.
ghost use Rattle.std.specs.Prelude.{◌≡◌, Ok, Err};
ghost use Rattle.words.specs.Outcomes.{number_of, value_of};

use crate::{Accepted, Outcome, Refusal};

impl Accepted {
    // The paper's number.
    pub fn number(self) -> u8
        ensures { result ≡ number_of (Ok self) }
    {
        match self {
            Accepted::Done(_) => 0,
            Accepted::Forwarded(_) => 1,
            Accepted::Nobody => 2,
        }
    }

    // The length or the count that goes with it.
    pub fn value(self) -> usize
        ensures { result ≡ value_of (Ok self) }
    {
        match self {
            Accepted::Done(n) | Accepted::Forwarded(n) => n,
            Accepted::Nobody => 0,
        }
    }
}

impl Refusal {
    // The paper's number.
    pub fn number(self) -> u8
        ensures { result ≡ number_of (Err self) }
    {
        match self {
            Refusal::WrongLength => 10,
            Refusal::WrongDataLength => 11,
            Refusal::WrongType => 12,
            Refusal::NoSource => 13,
            Refusal::NoDestination => 14,
            Refusal::ResponseToMany => 15,
            Refusal::Unsound => 16,
            Refusal::NoRoom => 17,
            Refusal::NotServed => 18,
            Refusal::NoCopy => 19,
            Refusal::OutOfRange => 20,
            Refusal::AlreadyAdmitted => 21,
            Refusal::NoFreeRecord => 22,
            Refusal::NotAdmitted => 23,
        }
    }
}

// The paper's number of either.
pub fn number_of(outcome: Outcome) -> u8
    ensures { result ≡ number_of outcome }
{
    match outcome {
        Ok(accepted) => accepted.number(),
        Err(refusal) => refusal.number(),
    }
}
