// The commands of Bind Management (document 01, Commands and codes). "A bind is handled as its eight octets, copied whole": it is read from a payload or a
// record, compared and stored by value.
#![tactic(auto)]

ghost use Rattle.std.specs.Prelude.{◌≡◌, ◌%◌, length};
ghost use Rattle.words.specs.Reasons.{fault_in};
ghost use Rattle.rules.specs.Types.{Devices, Binds, Groups};
ghost use Rattle.rules.specs.Lists.{any};
ghost use Rattle.rules.specs.Tables.{used, matches, store, wipe, written};
ghost use Rattle.rules.specs.Layout.{size, part_length, part_is};
ghost use Rattle.rules.specs.Frame.{table};
ghost use Rattle.rules.specs.Payloads.{wanted, bind_of};
ghost use Rattle.rules.specs.Faults.{add_fault};
ghost use Rattle.rules.specs.Commands.{room_in, removal};
ghost use Rattle.changing.specs.Changing.{coded, coding};

use layouts::BIND;
use words::{BindPart, Code, Reason};

// Is the bind there? It is compared by value (document 01), and not where it stands as `records::has` compares.
fn bind_there(binds: &[u8], bind: [u8; 8]) -> bool
    ensures { result ≡ any (matches 0 bind) (used (table Binds binds.now)) }
{
    binds.chunks_exact(BIND).any(|record| !records::is_free(record)
        && bind_records::same_bind(bind_records::bind_at(record, 0), bind))
}

// Puts the bind into the first free record.
fn store_bind(binds: &mut [u8], bind: [u8; 8])
    requires { length binds.old % size Binds ≡ 0 }
    ensures { binds.new ≡ written (size Binds) (store bind) binds.old }
{
    records::store(binds, BIND, &bind);
}

// What is wrong with an Add Bind: its length, its fields, or that the bind is there.
pub fn add_fault(devices: &[u8], binds: &[u8], groups: &[u8], payload: &[u8]) -> Result<(), Reason>
    ensures { fault_in result
        ≡ add_fault (table Devices devices.now) (table Binds binds.now) (table Groups groups.now) payload.now }
{
    if payload.len() != BIND {
        return Err(Reason::PayloadLength);
    }
    let bind = payloads::bind_of(payload);
    faults::bind_fault(bind, devices, groups)?;
    if bind_there(binds, bind) {
        return Err(Reason::AlreadyPresent);
    }
    Ok(())
}

// Add Bind, of which nothing is wrong: the payload's eight octets, if one record is free.
pub fn add_bind(binds: &mut [u8], payload: &[u8]) -> Code
    requires { (length payload.now ≡ size Binds) × (length binds.old % size Binds ≡ 0) }
    ensures { coded result binds.new
        ≡ coding (size Binds) (room_in (table Binds binds.old)) (store (bind_of payload.now)) binds.old }
{
    if !records::has_room(binds, BIND) {
        return Code::not_enough_resources();
    }
    let bind = payloads::bind_of(payload);
    store_bind(binds, bind);
    Code::ok()
}

// Remove Bind and the four forms by ..: all binds whose part is the payload's become free.
pub fn remove_binds(binds: &mut [u8], part: BindPart, payload: &[u8]) -> Code
    requires { (length payload.now ≡ part_length part) × (length binds.old % size Binds ≡ 0) }
    ensures { coded result binds.new
        ≡ coding (size Binds) (removal (part_is part (wanted part payload.now)) (table Binds binds.old))
        (wipe (part_is part (wanted part payload.now))) binds.old }
{
    let from = bind_records::part_start(part);
    let want = payloads::wanted(part, payload);
    changing::remove(binds, BIND, from, &want[..payload.len()])
}
