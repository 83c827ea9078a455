// The response codes, named once with their type (document 003, Table 25).
ghost use Rattle.std.specs.Prelude.{◌≡◌};
ghost use Rattle.words.specs.Names.{ok, not_authorized, invalid_argument, no_read_session, not_enough_resources, unknown_reason};

use crate::Code;

impl Code {
    pub const OK: Code = Code(0x00);

    pub const NOT_AUTHORIZED: Code = Code(0x01);

    pub const INVALID_ARGUMENT: Code = Code(0x02);

    pub const NO_READ_SESSION: Code = Code(0x20);

    pub const NOT_ENOUGH_RESOURCES: Code = Code(0xFE);

    pub const UNKNOWN_REASON: Code = Code(0xFF);

    pub fn ok() -> Self
        ensures { result ≡ ok }
    {
        Code::OK
    }

    pub fn not_authorized() -> Self
        ensures { result ≡ not_authorized }
    {
        Code::NOT_AUTHORIZED
    }

    pub fn invalid_argument() -> Self
        ensures { result ≡ invalid_argument }
    {
        Code::INVALID_ARGUMENT
    }

    pub fn no_read_session() -> Self
        ensures { result ≡ no_read_session }
    {
        Code::NO_READ_SESSION
    }

    pub fn not_enough_resources() -> Self
        ensures { result ≡ not_enough_resources }
    {
        Code::NOT_ENOUGH_RESOURCES
    }

    pub fn unknown_reason() -> Self
        ensures { result ≡ unknown_reason }
    {
        Code::UNKNOWN_REASON
    }
}
