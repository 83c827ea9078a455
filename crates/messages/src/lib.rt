// The message (document 01, The message): reading it, what its fields say, and the header of a reply.
#![tactic(auto)]

ghost use Rattle.std.specs.Prelude.{◌≡◌, ◌+◌, ◌-◌, ◌≤◌, eqb, leb, length};
ghost use Rattle.words.specs.Names.{header_length, longest, command_type, last_type};
ghost use Rattle.rules.specs.Lists.{◌&◌};
ghost use Rattle.rules.specs.Octets.{octets, over};
ghost use Rattle.rules.specs.Message.{fields, destination, response, length_fits, read_as, reading, header, answering};
ghost use Rattle.messages.specs.Ranges.{Ranged};

use words::{Destination, DeviceAddress, Fields, GroupAddress, Refusal};

// What a message says in its first fifteen octets; reserved bits and transport are ignored. A data length has nine bits.
fn fields(message: &[u8]) -> Fields
    requires { header_length ≤ length message.now }
    ensures { result ≡ fields message.now }
{
    let from = octets::word_at(message, 0);
    let to = octets::word_at(message, 3);
    let interface = octets::word_at(message, 10);
    Fields {
        source: DeviceAddress(octets::number(from)),
        source_unit: message[2],
        address_type: octets::flag(to),
        destination: octets::number(to),
        destination_unit: message[5],
        app_ref: message[8],
        message_type: message[9],
        interface_type: octets::flag(interface),
        uid: octets::number(interface),
        member: message[12],
        data_length: octets::low_nine(octets::word_at(message, 13)),
        payload: Fields::PAYLOAD,
    }
}

// Outcome 10: fifteen to five hundred octets.
#[tactic(auto, using(crate::proofs::Reading::and_is), unfolding(rules::specs::Message::length_fits))]
fn length_fits(message: &[u8]) -> bool
    ensures { result ≡ length_fits message.now }
{
    (Fields::HEADER..=Fields::LONGEST).contains(&message.len())
}

// Outcome 11: the data length is that of the payload, in a message of n octets.
fn data_length_fits(data_length: u16, n: usize) -> bool
    requires { header_length ≤ n }
    ensures { result ≡ eqb data_length (n - header_length) }
{
    data_length as usize == n - Fields::HEADER
}

// Outcome 12: from the first type to the last.
#[tactic(auto, using(crate::proofs::Reading::and_is))]
fn type_fits(message_type: u8) -> bool
    ensures { result ≡ leb command_type message_type & leb message_type last_type }
{
    (Fields::COMMAND..=Fields::LAST_TYPE).contains(&message_type)
}

// Reads any octets: the fields, or why not (document 01, Outcomes: "Reading alone"). The checks that reading, copying and handling a message share are made
// here, in the paper's order, and nowhere else are its fields taken from the octets.
#[tactic(auto, using(crate::proofs::Reading::checks), unfolding(rules::specs::Message::reading, rules::specs::Message::reads, rules::specs::Lists::ask))]
pub fn read(message: &[u8]) -> Result<Fields, Refusal>
    ensures { read_as result ≡ reading message.now }
{
    if !length_fits(message) {
        return Err(Refusal::WrongLength);
    }
    let said = fields(message);
    if !data_length_fits(said.data_length, message.len()) {
        return Err(Refusal::WrongDataLength);
    }
    if !type_fits(said.message_type) {
        return Err(Refusal::WrongType);
    }
    Ok(said)
}

// Where a message goes: a group and a device of one number are told apart here, once.
#[tactic(auto, using(crate::proofs::Reading::and_is), unfolding(rules::specs::Message::destination))]
pub fn destination(f: Fields) -> Destination
    ensures { result ≡ destination f }
{
    if f.address_type == Fields::SET {
        return Destination::Group(GroupAddress(f.destination));
    }
    match (DeviceAddress(f.destination), f.destination_unit) {
        (DeviceAddress::CONCENTRATOR, 0) => Destination::Concentrator,
        (DeviceAddress::BIND, DeviceAddress::NO_UNIT) => Destination::BindAddress,
        (device, unit) => Destination::Unit(device, unit),
    }
}

// "Response types are 0x03, 0x05, 0x08, 0x0A, 0x0D, 0x10; the other ten are requests." A response goes to one unit only (outcome 15).
#[tactic(auto, unfolding(rules::specs::Lists::any, rules::specs::Message::response))]
pub fn is_response(f: Fields) -> bool
    ensures { result ≡ response f }
{
    matches!(f.message_type, 0x03 | 0x05 | 0x08 | 0x0A | 0x0D | 0x10)
}

// The fields of the reply to a request, with n octets of payload: from D'0:U'0 to the sender, type 0x03.
#[tactic(auto, unfolding(rules::specs::Message::answering))]
fn answering(request: Fields, n: u16) -> Fields
    ensures { result ≡ answering request n }
{
    Fields {
        source: DeviceAddress::CONCENTRATOR,
        source_unit: 0,
        address_type: 0,
        destination: request.source.0,
        destination_unit: request.source_unit,
        app_ref: request.app_ref,
        message_type: Fields::COMMAND_RESPONSE,
        interface_type: request.interface_type,
        uid: request.uid,
        member: request.member,
        data_length: n,
        payload: Fields::PAYLOAD,
    }
}

// The fifteen octets of a header. Its reserved bits and its transport are 0.
#[tactic(auto, unfolding(rules::specs::Octets::octets, rules::specs::Octets::joined, rules::specs::Message::header))]
fn header_octets(f: Fields) -> [u8; 15]
    requires { Ranged f }
    ensures { result ≡ header f }
{
    let from = f.source.0;
    let to = octets::flagged(f.address_type, f.destination);
    let interface = octets::flagged(f.interface_type, f.uid);
    [
        octets::high(from),
        octets::low(from),
        f.source_unit,
        octets::high(to),
        octets::low(to),
        f.destination_unit,
        0,
        0,
        f.app_ref,
        f.message_type,
        octets::high(interface),
        octets::low(interface),
        f.member,
        octets::high(f.data_length),
        octets::low(f.data_length),
    ]
}

// Writes the header of the reply to a request over the first fifteen octets, once its n octets of payload stand behind them.
#[tactic(auto, using(crate::proofs::Replies::answering_ranged))]
pub fn write_header(lent: &mut [u8], request: Fields, n: usize)
    requires { (header_length ≤ length lent.old) × (header_length + n ≤ longest) × Ranged request }
    ensures { lent.new ≡ over (header (answering request n)) lent.old }
{
    let header = header_octets(answering(request, n as u16));
    octets::put(lent, &header);
}
