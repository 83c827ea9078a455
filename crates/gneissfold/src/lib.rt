// The calls for C and Rust (include/gneissfold.h, bindings/rust). Each hands on what is lent to it to a call of `hub`, and tells the
// answer in numbers: the paper's outcome number is returned, a length or count, a reason and its octet go where the caller points.
// No call requires anything: each answers on any octets and any lengths. Arguments are C's: slices one by one, numbers, and places to write to.
#![tactic(auto)]

ghost use Rattle.std.specs.Prelude.{◌≡◌};
ghost use Rattle.words.specs.Names.{device};
ghost use Rattle.words.specs.Outcomes.{number_of, value_of, without_length};
ghost use Rattle.words.specs.Reasons.{reason_number, reason_octet};
ghost use Rattle.rules.specs.Frame.{lent};
ghost use Rattle.rules.specs.Calls.{message};
ghost use Rattle.rules.specs.Copy.{copy};
ghost use Rattle.rules.specs.Host.{admit, release};
ghost use Rattle.rules.specs.Carry.{carried_over};
ghost use Rattle.rules.specs.Message.{reading};
ghost use Rattle.gneissfold.specs.Numbers.{message_told, of_message, host_told, of_host, carry_told, of_carry, copy_told};
ghost use Rattle.gneissfold.specs.Numbers.{of_copy, read_told, of_reading, twelve};

use hub::Tables;
use words::{DeviceAddress, Fields, Outcome, Reason, Refusal};

// Tells what a message was answered: its count or length, its reason and the octet concerned go where the caller points, and its number is returned.
pub fn tell(
    outcome: Outcome,
    fault: Option<Reason>,
    count: &mut usize,
    reason: &mut u8,
    octet: &mut u8,
) -> u8
    ensures { (result ≡ number_of outcome) × (count.new ≡ value_of outcome)
        × (reason.new ≡ reason_number fault) × (octet.new ≡ reason_octet fault) }
{
    *count = match outcome {
        Ok(accepted) => accepted.value(),
        Err(_) => 0,
    };
    *reason = match fault {
        Some(fault) => fault.number(),
        None => 0,
    };
    *octet = match fault {
        Some(fault) => fault.octet(),
        None => 0,
    };
    words::number_of(outcome)
}

// The number of an answer that tells no length.
fn number_of_host(answer: Result<(), Refusal>) -> u8
    ensures { result ≡ number_of (without_length answer) }
{
    match answer {
        Ok(()) => 0,
        Err(refusal) => refusal.number(),
    }
}

// Handles a message. `count` gets the reply's length or the number of recipients, and 0 where the paper states none; `reason` and `octet` say what is wrong
// with an Add Bind that is answered 0x02, and else 0.
pub fn gneissfold_message(
    devices: &mut [u8],
    binds: &mut [u8],
    groups: &mut [u8],
    members: &mut [u8],
    sessions: &mut [u8],
    msg: &[u8],
    reply: &mut [u8],
    list: &mut [u8],
    count: &mut usize,
    reason: &mut u8,
    octet: &mut u8,
) -> u8
    ensures { message_told result count.new reason.new octet.new
        (lent devices.new binds.new groups.new members.new sessions.new)
        reply.new list.new
        ≡ of_message (message (lent devices.old binds.old groups.old members.old sessions.old)
        msg.now reply.old list.old) }
{
    let mut tables = Tables {
        devices,
        binds,
        groups,
        members,
        sessions,
    };
    match hub::message(&mut tables, msg, reply, list) {
        Ok(told) => tell(Ok(told.accepted), told.reason, count, reason, octet),
        Err(refusal) => tell(Err(refusal), None, count, reason, octet),
    }
}

// Admits a device with its rights and its set of units.
pub fn gneissfold_admit(
    devices: &mut [u8],
    binds: &[u8],
    groups: &[u8],
    members: &[u8],
    sessions: &[u8],
    address: u16,
    rights: u8,
    units: &[u8; 32],
) -> u8
    ensures { host_told result (lent devices.new binds.now groups.now members.now sessions.now)
        ≡ of_host (admit (lent devices.old binds.now groups.now members.now sessions.now)
        (device address) rights units.now) }
{
    number_of_host(hub::admit(
        devices,
        binds,
        groups,
        members,
        sessions,
        DeviceAddress(address),
        rights,
        units,
    ))
}

// Releases a device, with its members and the binds that name it, and its read session; all sessions where a bind named it.
pub fn gneissfold_release(
    devices: &mut [u8],
    binds: &mut [u8],
    groups: &[u8],
    members: &mut [u8],
    sessions: &mut [u8],
    address: u16,
) -> u8
    ensures { host_told result (lent devices.new binds.new groups.now members.new sessions.new)
        ≡ of_host (release (lent devices.old binds.old groups.now members.old sessions.old)
        (device address)) }
{
    let gone = DeviceAddress(address);
    number_of_host(hub::release(devices, binds, groups, members, sessions, gone))
}

// Carries an old device table, of records of 4 octets, over into a new one.
pub fn gneissfold_carry_over(old: &[u8], new: &mut [u8]) -> u8
    ensures { carry_told result new.new ≡ of_carry (carried_over old.now new.old) }
{
    number_of_host(hub::carry_over(old, new))
}

// Writes the copy of a message for one unit of a device into the room. `length` gets the copy's length, or 0.
pub fn gneissfold_copy(msg: &[u8], room: &mut [u8], to: u16, unit: u8, length: &mut usize) -> u8
    ensures { copy_told result length.new room.new
        ≡ of_copy (copy msg.now room.old (device to) unit) }
{
    match hub::copy(msg, room, DeviceAddress(to), unit) {
        Ok(n) => {
            *length = n;
            0
        }
        Err(refusal) => {
            *length = 0;
            refusal.number()
        }
    }
}

// The twelve fields in the message's order, the last the octet where the payload begins.
fn numbers(f: Fields) -> [u16; 12]
    ensures { result ≡ twelve f }
{
    [
        f.source.0,
        u16::from(f.source_unit),
        f.address_type,
        f.destination,
        u16::from(f.destination_unit),
        u16::from(f.app_ref),
        u16::from(f.message_type),
        f.interface_type,
        f.uid,
        u16::from(f.member),
        f.data_length,
        f.payload,
    ]
}

// Reads a message, and writes its twelve fields: every one of them 0 where it cannot be read.
pub fn gneissfold_read(msg: &[u8], fields: &mut [u16; 12]) -> u8
    ensures { read_told result fields.new ≡ of_reading (reading msg.now) }
{
    match hub::read(msg) {
        Ok(said) => {
            *fields = numbers(said);
            0
        }
        Err(refusal) => {
            *fields = numbers(Fields::NONE);
            refusal.number()
        }
    }
}
