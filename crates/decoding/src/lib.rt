// Which command a message is, and what stands before its own checks (document 01, Commands and codes).
#![tactic(auto)]

ghost use Rattle.std.specs.Prelude.{◌≡◌};
ghost use Rattle.rules.specs.Types.{CreateGroup};
ghost use Rattle.rules.specs.Payloads.{read_command, bind_command, group_command, command};
ghost use Rattle.rules.specs.Sessions.{filter_length};
ghost use Rattle.rules.specs.Commands.{row};

use words::{BindPart, Command, Fields, Filter};

// The two checks that stand before every command's own: whether rights are asked, and how long the payload should be.
#[derive(Drop)]
pub struct Asked {
    pub rights: bool,
    pub length: usize,
}

// Bind Management, what reads binds back, by member.
#[tactic(auto, unfolding(rules::specs::Payloads::read_command))]
fn read_command(member: u8) -> Option<Command>
    ensures { result ≡ read_command member }
{
    match member {
        Command::START_SESSION => Some(Command::StartSession),
        Command::END_SESSION => Some(Command::EndSession),
        Command::GET_BY_INDEX => Some(Command::GetEntries(Filter::Index)),
        Command::GET_BY_SOURCE => Some(Command::GetEntries(Filter::Part(BindPart::Source))),
        Command::GET_BY_SOURCE_UNIT => Some(Command::GetEntries(Filter::Part(
            BindPart::SourceUnit,
        ))),
        Command::GET_BY_DESTINATION => Some(Command::GetEntries(Filter::Part(
            BindPart::Destination,
        ))),
        Command::GET_BY_DESTINATION_UNIT => Some(Command::GetEntries(Filter::Part(
            BindPart::DestinationUnit,
        ))),
        _ => None,
    }
}

// .. and what changes them, in the same way.
#[tactic(auto, unfolding(rules::specs::Payloads::bind_command))]
fn bind_command(member: u8) -> Option<Command>
    ensures { result ≡ bind_command member }
{
    match member {
        Command::ADD_BIND => Some(Command::AddBind),
        Command::REMOVE_BIND => Some(Command::RemoveBinds(BindPart::Whole)),
        Command::REMOVE_BY_SOURCE => Some(Command::RemoveBinds(BindPart::Source)),
        Command::REMOVE_BY_SOURCE_UNIT => Some(Command::RemoveBinds(BindPart::SourceUnit)),
        Command::REMOVE_BY_DESTINATION => Some(Command::RemoveBinds(BindPart::Destination)),
        Command::REMOVE_BY_DESTINATION_UNIT => Some(Command::RemoveBinds(
            BindPart::DestinationUnit,
        )),
        _ => read_command(member),
    }
}

// Group Management, by member, likewise.
#[tactic(auto, unfolding(rules::specs::Payloads::group_command))]
fn group_command(member: u8) -> Option<Command>
    ensures { result ≡ group_command member }
{
    match member {
        Command::CREATE_GROUP => Some(Command::CreateGroup),
        Command::DELETE_GROUP => Some(Command::DeleteGroup),
        Command::ADD_TO_GROUP => Some(Command::AddToGroup),
        Command::REMOVE_FROM_GROUP => Some(Command::RemoveFromGroup),
        Command::GET_GROUP_INFO => Some(Command::GetGroupInfo),
        _ => None,
    }
}

// One of the commands as type 0x01 or 0x02 to a server interface, or what is not served.
#[tactic(auto, using(crate::proofs::Decoding::checks))]
pub fn command(f: Fields) -> Option<Command>
    ensures { result ≡ command f }
{
    if !matches!(f.message_type, Fields::COMMAND | Fields::COMMAND_ASKING) {
        return None;
    }
    if f.interface_type != Fields::SET {
        return None;
    }
    match f.uid {
        Fields::BIND_MANAGEMENT => bind_command(f.member),
        Fields::GROUP_MANAGEMENT => group_command(f.member),
        _ => None,
    }
}

// The length that Create Group asks: name length and name, "so an empty payload is wrong". The contract alone asks which command it is.
fn length_with_name(command: Command, payload: &[u8]) -> usize
    requires { command ≡ CreateGroup }
    ensures { result ≡ (row command).length payload.now }
{
    match payload {
        [] => 1,
        [name_length, ..] => 1 + *name_length as usize,
    }
}

// The octets of a payload by index: a start index of 16 bits and a number.
const INDEX: usize = 3;

// The length of a read's payload: that of an index, or of the part of a bind that it names.
fn filter_length(filter: Filter) -> usize
    ensures { result ≡ filter_length filter }
{
    match filter {
        Filter::Index => INDEX,
        Filter::Part(part) => bind_records::part_length(part),
    }
}

fn asking(rights: bool, length: usize) -> Asked
    ensures rights { result.rights ≡ rights }
    ensures length { result.length ≡ length }
{
    Asked { rights, length }
}

// What a command asks: the sender's rights, but for Get Group Info, End and the reads, and the length of this payload.
pub fn demands(command: Command, payload: &[u8]) -> Asked
    ensures rights { result.rights ≡ (row command).rights }
    ensures length { result.length ≡ (row command).length payload.now }
{
    match command {
        Command::AddBind => asking(true, layouts::BIND),
        Command::RemoveBinds(part) => asking(true, bind_records::part_length(part)),
        Command::StartSession => asking(true, 0),
        Command::EndSession => asking(false, 0),
        Command::GetEntries(filter) => asking(false, filter_length(filter)),
        Command::CreateGroup => asking(true, length_with_name(command, payload)),
        Command::DeleteGroup => asking(true, layouts::ADDRESS),
        Command::AddToGroup => asking(true, layouts::MEMBER),
        Command::RemoveFromGroup => asking(true, layouts::MEMBER),
        Command::GetGroupInfo => asking(false, layouts::ADDRESS),
    }
}
