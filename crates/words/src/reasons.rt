// The paper's number of a reason, and the octet of the payload that goes with it (document 02, request 6). Both are octets: a `From` could be only one.
ghost use Rattle.std.specs.Prelude.{◌≡◌, Some};
ghost use Rattle.words.specs.Reasons.{reason_number, reason_octet};

use crate::Reason;

impl Reason {
    // The paper's number.
    pub fn number(self) -> u8
        ensures { result ≡ reason_number (Some self) }
    {
        match self {
            Reason::PayloadLength => 1,
            Reason::NoSourceDevice => 2,
            Reason::NoSourceUnit => 3,
            Reason::DestinationUnitFF => 4,
            Reason::NoDestinationDevice => 5,
            Reason::NoDestinationUnit => 6,
            Reason::NoGroup => 7,
            Reason::BoundToItself => 8,
            Reason::AlreadyPresent => 9,
        }
    }

    // "the first octet of the payload concerned", counted from 1; 0 for its length.
    pub fn octet(self) -> u8
        ensures { result ≡ reason_octet (Some self) }
    {
        match self {
            Reason::PayloadLength => 0,
            Reason::NoSourceDevice => 1,
            Reason::NoSourceUnit => 3,
            Reason::DestinationUnitFF => 8,
            Reason::NoDestinationDevice => 6,
            Reason::NoDestinationUnit => 8,
            Reason::NoGroup => 6,
            Reason::BoundToItself => 6,
            Reason::AlreadyPresent => 1,
        }
    }
}
