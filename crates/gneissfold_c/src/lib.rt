// The static library: what C and Rust link (include/gneissfold.h, bindings/rust). Each export hands on to the call of its name in `gneissfold` and promises
// what that promises: a crate is a library or a static library, so the calls stand here too.
#![tactic(auto)]

ghost use Rattle.std.specs.Prelude.{◌≡◌};
ghost use Rattle.words.specs.Names.{device};
ghost use Rattle.rules.specs.Frame.{lent};
ghost use Rattle.rules.specs.Calls.{message};
ghost use Rattle.rules.specs.Copy.{copy};
ghost use Rattle.rules.specs.Host.{admit, release};
ghost use Rattle.rules.specs.Carry.{carried_over};
ghost use Rattle.rules.specs.Message.{reading};
ghost use Rattle.gneissfold.specs.Numbers.{message_told, of_message, host_told, of_host, carry_told, of_carry, copy_told};
ghost use Rattle.gneissfold.specs.Numbers.{of_copy, read_told, of_reading};

// Handles a message. `count` gets the reply's length or the number of recipients, and 0 where the paper states none; `reason` and `octet` say what is wrong
// with an Add Bind that is answered 0x02, and else 0.
#[unsafe(no_mangle)]
pub extern "C" fn gneissfold_message(
    devices: &mut [u8],
    binds: &mut [u8],
    groups: &mut [u8],
    members: &mut [u8],
    sessions: &mut [u8],
    msg: &[u8],
    reply: &mut [u8],
    list: &mut [u8],
    count: &mut usize,
    reason: &mut u8,
    octet: &mut u8,
) -> u8
    ensures { message_told result count.new reason.new octet.new
        (lent devices.new binds.new groups.new members.new sessions.new)
        reply.new list.new
        ≡ of_message (message (lent devices.old binds.old groups.old members.old sessions.old)
        msg.now reply.old list.old) }
{
    gneissfold::gneissfold_message(
        devices, binds, groups, members, sessions, msg, reply, list, count, reason, octet,
    )
}

// Admits a device with its rights and its set of units.
#[unsafe(no_mangle)]
pub extern "C" fn gneissfold_admit(
    devices: &mut [u8],
    binds: &[u8],
    groups: &[u8],
    members: &[u8],
    sessions: &[u8],
    address: u16,
    rights: u8,
    units: &[u8; 32],
) -> u8
    ensures { host_told result (lent devices.new binds.now groups.now members.now sessions.now)
        ≡ of_host (admit (lent devices.old binds.now groups.now members.now sessions.now)
        (device address) rights units.now) }
{
    gneissfold::gneissfold_admit(
        devices, binds, groups, members, sessions, address, rights, units,
    )
}

// Releases a device, with its members and the binds that name it, and its read session; all sessions where a bind named it.
#[unsafe(no_mangle)]
pub extern "C" fn gneissfold_release(
    devices: &mut [u8],
    binds: &mut [u8],
    groups: &[u8],
    members: &mut [u8],
    sessions: &mut [u8],
    address: u16,
) -> u8
    ensures { host_told result (lent devices.new binds.new groups.now members.new sessions.new)
        ≡ of_host (release (lent devices.old binds.old groups.now members.old sessions.old)
        (device address)) }
{
    gneissfold::gneissfold_release(devices, binds, groups, members, sessions, address)
}

// Carries an old device table, of records of 4 octets, over into a new one.
#[unsafe(no_mangle)]
pub extern "C" fn gneissfold_carry_over(old: &[u8], new: &mut [u8]) -> u8
    ensures { carry_told result new.new ≡ of_carry (carried_over old.now new.old) }
{
    gneissfold::gneissfold_carry_over(old, new)
}

// Writes the copy of a message for one unit of a device into the room. `length` gets the copy's length, or 0.
#[unsafe(no_mangle)]
pub extern "C" fn gneissfold_copy(
    msg: &[u8],
    room: &mut [u8],
    to: u16,
    unit: u8,
    length: &mut usize,
) -> u8
    ensures { copy_told result length.new room.new
        ≡ of_copy (copy msg.now room.old (device to) unit) }
{
    gneissfold::gneissfold_copy(msg, room, to, unit, length)
}

// Reads a message, and writes its twelve fields: every one of them 0 where it cannot be read.
#[unsafe(no_mangle)]
pub extern "C" fn gneissfold_read(msg: &[u8], fields: &mut [u16; 12]) -> u8
    ensures { read_told result fields.new ≡ of_reading (reading msg.now) }
{
    gneissfold::gneissfold_read(msg, fields)
}
