// The two calls of the host (document 01, Outcomes): a device is admitted, a device is released. Each looks first, and writes only on outcome 0.
#![tactic(auto)]

ghost use Rattle.std.specs.Prelude.{◌≡◌, List, ℕ, ◌%◌, length};
ghost use Rattle.words.specs.Outcomes.{without_length};
ghost use Rattle.rules.specs.Types.{Devices, Binds, Members, Sessions};
ghost use Rattle.rules.specs.Lists.{any};
ghost use Rattle.rules.specs.Tables.{used, wipe, written};
ghost use Rattle.rules.specs.Layout.{size};
ghost use Rattle.rules.specs.Frame.{lent, table, tables};
ghost use Rattle.rules.specs.Host.{host_answer, settled, admission, admit, names_device, taking, releasing, dismissal, release};

use layouts::{BIND, DEVICE, MEMBER, MEMBER_DEVICE};
use lent::View;
use words::{BindPart, DeviceAddress, Refusal};

// "Admit: 16, 20, 21, 22, else 0.", behind 16. It looks, and writes nothing.
fn admission(
    devices: &[u8],
    address: DeviceAddress,
    rights: u8,
    units: &[u8; 32],
) -> Result<(), Refusal>
    ensures { without_length result ≡ admission (table Devices devices.now) address rights units.now }
{
    let fits = fitting::device_in_range(address, rights, units, 0);
    let there = existing::is_admitted(devices, address);
    let room = records::has_room(devices, DEVICE);
    if !fits {
        return Err(Refusal::OutOfRange);
    }
    if there {
        return Err(Refusal::AlreadyAdmitted);
    }
    if !room {
        return Err(Refusal::NoFreeRecord);
    }
    Ok(())
}

// Admits a device with its rights and its set of units: its record goes to the first free place. Here and in a release the tables come one by one, since C
// lends those that stay as they are to be read only.
pub fn admit(
    devices: &mut [u8],
    binds: &[u8],
    groups: &[u8],
    members: &[u8],
    sessions: &[u8],
    address: DeviceAddress,
    rights: u8,
    units: &[u8; 32],
) -> Result<(), Refusal>
    ensures { host_answer (without_length result) (lent devices.new binds.now groups.now members.now sessions.now)
        ≡ admit (lent devices.old binds.now groups.now members.now sessions.now) address rights
        units.now }
{
    let given = View {
        devices,
        binds,
        groups,
        members,
        sessions,
    };
    if !soundness::sound(given) {
        return Err(Refusal::Unsound);
    }
    admission(devices, address, rights, units)?;
    let record = device_records::device_record(address, rights, units);
    records::store(devices, DEVICE, &record);
    Ok(())
}

// Does a bind name the device "as source or individual destination"? The flag of octet 6 is 0 in a device's address.
fn is_named(binds: &[u8], device: DeviceAddress) -> bool
    ensures { result ≡ any (names_device device) (used (table Binds binds.now)) }
{
    let wanted = layouts::address_octets(device.0);
    let source = records::has(binds, BIND, bind_records::SOURCE, &wanted);
    let destination = records::has(binds, BIND, bind_records::DESTINATION, &wanted);
    source | destination
}

// All binds that name it.
fn free_binds(binds: &mut [u8], device: DeviceAddress)
    requires { length binds.old % size Binds ≡ 0 }
    ensures { binds.new ≡ written (size Binds) (wipe (names_device device)) binds.old }
{
    let named = layouts::address_octets(device.0);
    let source = bind_records::part_start(BindPart::Source);
    let destination = bind_records::part_start(BindPart::Destination);
    records::free_matching(binds, BIND, source, &named);
    records::free_matching(binds, BIND, destination, &named);
}

// "Release takes the device, its members and all binds that name it". No group goes with a device.
fn free_device(devices: &mut [u8], binds: &mut [u8], members: &mut [u8], device: DeviceAddress)
    requires { (length devices.old % size Devices ≡ 0) × (length binds.old % size Binds ≡ 0) × (length members.old % size Members ≡ 0) }
    ensures { (devices.new ≡ written (size Devices) (taking device Devices) devices.old)
        × (binds.new ≡ written (size Binds) (taking device Binds) binds.old)
        × (members.new ≡ written (size Members) (taking device Members) members.old) }
{
    let address = layouts::address_octets(device.0);
    records::free_matching(devices, DEVICE, 0, &address);
    records::free_matching(members, MEMBER, MEMBER_DEVICE, &address);
    free_binds(binds, device);
}

// Releases a device from whole records, with all that names it: "Release: 16, 23, else 0.", behind 16. Groups, whatever they are, stay.
pub fn dismiss(
    devices: &mut [u8],
    binds: &mut [u8],
    members: &mut [u8],
    sessions: &mut [u8],
    address: DeviceAddress,
) -> Result<(), Refusal>
    requires { (length devices.old % size Devices ≡ 0) × (length binds.old % size Binds ≡ 0) × (length members.old % size Members ≡ 0)
        × (length sessions.old % size Sessions ≡ 0) }
    ensures { (gs : List ℕ)
        → host_answer (without_length result) (lent devices.new binds.new gs members.new sessions.new)
        ≡ settled (releasing (tables (lent devices.old binds.old gs members.old sessions.old)) address)
        (lent devices.old binds.old gs members.old sessions.old)
        (dismissal (table Devices devices.old) address) }
{
    if !existing::is_admitted(devices, address) {
        return Err(Refusal::NotAdmitted);
    }
    let named = is_named(binds, address);
    free_device(devices, binds, members, address);
    sessions::release(sessions, address, named);
    Ok(())
}

// Releases a device. "Release: 16, 23, else 0."
pub fn release(
    devices: &mut [u8],
    binds: &mut [u8],
    groups: &[u8],
    members: &mut [u8],
    sessions: &mut [u8],
    address: DeviceAddress,
) -> Result<(), Refusal>
    ensures { host_answer (without_length result) (lent devices.new binds.new groups.now members.new sessions.new)
        ≡ release (lent devices.old binds.old groups.now members.old sessions.old) address }
{
    let given = View {
        devices,
        binds,
        groups,
        members,
        sessions,
    };
    if !soundness::sound(given) {
        return Err(Refusal::Unsound);
    }
    dismiss(devices, binds, members, sessions, address)
}
