// Read sessions (document 02, request 1; document 000, 6.2.5.7 to 6.2.5.13): a device opens one, reads in it and ends it, and a change to the binds
// closes all. A session is the device's: any of its units may read or end it.
#![tactic(auto)]

ghost use Rattle.std.specs.Prelude.{◌≡◌, true, cond, ◌+◌, ◌%◌, ◌≤◌, length};
ghost use Rattle.words.specs.Names.{unknown_reason, header_length, longest};
ghost use Rattle.rules.specs.Types.{Binds, Sessions};
ghost use Rattle.rules.specs.Octets.{over};
ghost use Rattle.rules.specs.Tables.{addressed, wipe, written};
ghost use Rattle.rules.specs.Layout.{size, full};
ghost use Rattle.rules.specs.Frame.{table};
ghost use Rattle.rules.specs.Sessions.{in_session, filter_length};
ghost use Rattle.rules.specs.Commands.{session_or};
ghost use Rattle.changing.specs.Changing.{coded, coding};
ghost use Rattle.sessions.specs.Reading.{opened, started, starting, reading};

use layouts::SESSION;
use words::{Code, DeviceAddress, Filter};

// Has the device a session?
fn in_session(sessions: &[u8], device: DeviceAddress) -> bool
    ensures { result ≡ in_session (table Sessions sessions.now) device }
{
    records::has(sessions, SESSION, 0, &layouts::address_octets(device.0))
}

// Opens a session in the first free record. Who has one keeps it.
fn open(sessions: &mut [u8], device: DeviceAddress) -> Code
    requires { length sessions.old % size Sessions ≡ 0 }
    ensures { coded result sessions.new ≡ opened device sessions.old }
{
    if in_session(sessions, device) {
        return Code::ok();
    }
    if !records::has_room(sessions, SESSION) {
        return Code::not_enough_resources();
    }
    records::store(sessions, SESSION, &layouts::address_octets(device.0));
    Code::ok()
}

// Start Session: 0x00 is followed by the number of binds.
pub fn start(binds: &[u8], sessions: &mut [u8], device: DeviceAddress, out: &mut [u8]) -> usize
    requires { (length binds.now ≤ full Binds) × (length sessions.old % size Sessions ≡ 0) × (3 ≤ length out.old) }
    ensures { started result sessions.new out.new
        ≡ starting binds.now sessions.old device out.old }
{
    let code = open(sessions, device);
    let count = entries::number_of_binds(binds);
    changing::write_word(out, code, count as u16)
}

// End Session: the device's record becomes free.
pub fn end(sessions: &mut [u8], device: DeviceAddress) -> Code
    requires { length sessions.old % size Sessions ≡ 0 }
    ensures { coded result sessions.new
        ≡ coding (size Sessions) (session_or unknown_reason device (table Sessions sessions.old))
        (wipe (addressed device.0)) sessions.old }
{
    if !in_session(sessions, device) {
        return Code::unknown_reason();
    }
    records::free_matching(sessions, SESSION, 0, &layouts::address_octets(device.0));
    Code::ok()
}

// A read, in a session.
pub fn read(
    binds: &[u8],
    sessions: &[u8],
    device: DeviceAddress,
    filter: Filter,
    payload: &[u8],
    out: &mut [u8],
) -> usize
    requires { (length payload.now ≡ filter_length filter) × (longest ≤ header_length + length out.old) }
    ensures { (result ≡ length (reading (table Binds binds.now) (table Sessions sessions.now) device filter payload.now))
        × (out.new
        ≡ over (reading (table Binds binds.now) (table Sessions sessions.now) device filter payload.now)
        out.old) }
{
    let open = in_session(sessions, device);
    if !open {
        return changing::write_code(out, Code::no_read_session());
    }
    entries::get_entries(binds, filter, payload, out)
}

// "any change to the bind table closes all sessions": every record has the octets that are looked for, which are none.
pub fn close_all(sessions: &mut [u8], changed: bool)
    requires { length sessions.old % size Sessions ≡ 0 }
    ensures { sessions.new ≡ cond changed (written (size Sessions) (wipe (λ r. true)) sessions.old) sessions.old }
{
    if changed {
        records::free_matching(sessions, SESSION, 0, &[]);
    }
}

// "a release closes that device's", and all where a bind named it.
pub fn release(sessions: &mut [u8], device: DeviceAddress, named: bool)
    requires { length sessions.old % size Sessions ≡ 0 }
    ensures { sessions.new ≡ cond named (written (size Sessions) (wipe (λ r. true)) sessions.old)
        (written (size Sessions) (wipe (addressed device.0)) sessions.old) }
{
    if named {
        close_all(sessions, named);
    } else {
        records::free_matching(sessions, SESSION, 0, &layouts::address_octets(device.0));
    }
}
