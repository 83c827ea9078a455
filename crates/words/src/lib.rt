// The words of the paper as types: addresses, response codes, what a message says, what it is, and what a call answers. specs/ says what they mean.
#![tactic(auto)]

mod addresses;
mod codes;
mod headers;
mod numbers;
mod outcomes;
mod reasons;

pub use outcomes::number_of;

// A device's address. D'0001 and G'0001 are the same number and different things (document 01, Tables).
#[derive(Clone, Copy, PartialEq, Eq)]
pub struct DeviceAddress(pub u16);

// A group's address.
#[derive(Clone, Copy, PartialEq, Eq)]
pub struct GroupAddress(pub u16);

// A response code, the first octet of a reply's payload. An octet with names, as document 01 asks for it: associated constants and constructors.
#[derive(Clone, Copy, PartialEq, Eq)]
pub struct Code(pub u8);

// The fields of a message, in its order (document 01, The message), and the octet where the payload begins, counted from 1. Flags and types are numbers, as
// C gets all twelve.
#[derive(Clone, Copy, PartialEq, Eq)]
pub struct Fields {
    pub source: DeviceAddress,
    pub source_unit: u8,
    pub address_type: u16,
    pub destination: u16,
    pub destination_unit: u8,
    pub app_ref: u8,
    pub message_type: u8,
    pub interface_type: u16,
    pub uid: u16,
    pub member: u8,
    pub data_length: u16,
    pub payload: u16,
}

// Where a message goes, of the four kinds that document 01 tells apart.
#[derive(Clone, Copy, PartialEq, Eq)]
pub enum Destination {
    // D'0:U'0 and D'7FFF:U'FF, each of individual type
    Concentrator,
    BindAddress,
    // any other unit
    Unit(DeviceAddress, u8),
    // a group; the unit octet is ignored
    Group(GroupAddress),
}

// The octets of a bind that a removal or a read compares.
#[derive(Clone, Copy, PartialEq, Eq)]
pub enum BindPart {
    Whole,
    Source,
    SourceUnit,
    Destination,
    DestinationUnit,
}

// Which binds a Get Bind Entries command asks for: by their index, or by a part, which is never the whole.
#[derive(Clone, Copy, PartialEq, Eq)]
pub enum Filter {
    Index,
    Part(BindPart),
}

// The commands of the two services.
#[derive(Clone, Copy, PartialEq, Eq)]
pub enum Command {
    AddBind,
    RemoveBinds(BindPart),
    StartSession,
    EndSession,
    GetEntries(Filter),
    CreateGroup,
    DeleteGroup,
    AddToGroup,
    RemoveFromGroup,
    GetGroupInfo,
}

// The tables.
#[derive(Clone, Copy, PartialEq, Eq)]
pub enum Kind {
    Devices,
    Binds,
    Groups,
    Members,
    Sessions,
}

// What a call that is not refused comes to (document 01, Outcomes). `Done` holds a length, `Forwarded` the number of recipients.
#[derive(Clone, Copy, PartialEq, Eq)]
pub enum Accepted {
    Done(usize),
    Forwarded(usize),
    Nobody,
}

// Why a call is refused (document 01, Outcomes).
#[derive(Clone, Copy, PartialEq, Eq)]
pub enum Refusal {
    WrongLength,
    WrongDataLength,
    WrongType,
    NoSource,
    NoDestination,
    ResponseToMany,
    Unsound,
    NoRoom,
    NotServed,
    NoCopy,
    OutOfRange,
    AlreadyAdmitted,
    NoFreeRecord,
    NotAdmitted,
}

// What a public call answers.
pub type Outcome = Result<Accepted, Refusal>;

// What is wrong with an Add Bind that is answered 0x02 (document 02, request 6).
#[derive(Clone, Copy, PartialEq, Eq)]
pub enum Reason {
    PayloadLength,
    NoSourceDevice,
    NoSourceUnit,
    DestinationUnitFF,
    NoDestinationDevice,
    NoDestinationUnit,
    NoGroup,
    BoundToItself,
    AlreadyPresent,
}

// What a message that is not refused comes to: a command, or a message to hand on.
#[derive(Clone, Copy, PartialEq, Eq)]
pub enum Way {
    Serve(Command),
    Forward(Destination),
}

// What handling a message that is not refused gives, beside what it writes. There is a reason only where an Add Bind is answered 0x02.
#[derive(Clone, Copy, PartialEq, Eq)]
pub struct Told {
    pub accepted: Accepted,
    pub reason: Option<Reason>,
}
