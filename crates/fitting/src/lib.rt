// When the fields of a record are in range (document 01, Tables): the rules of a table that is sound, and those of Add to Group. What a bind must meet is in
// `faults`.
#![tactic(auto)]

ghost use Rattle.std.specs.Prelude.{◌≡◌, ◌+◌, ◌<◌, ◌≤◌, eqb, length, drop};
ghost use Rattle.rules.specs.Types.{Devices, Groups, Sessions};
ghost use Rattle.rules.specs.Lists.{all};
ghost use Rattle.rules.specs.Layout.{size, units_length, name_padding};
ghost use Rattle.rules.specs.Frame.{table};
ghost use Rattle.rules.specs.Sound.{address_fits, device_in_range, device_fits, group_fits, member_fits, session_fits, fits};

use device_records::{RIGHTS, UNITS, ZERO};
use words::{DeviceAddress, Kind};

// Is this an address that a device or a group may have?
pub fn address_fits(address: u16) -> bool
    ensures { result ≡ address_fits address }
{
    (DeviceAddress::LOWEST..=DeviceAddress::HIGHEST).contains(&address)
}

// Address, rights 0 or 1; "Unit 0 is always set and unit 255 never", in the set that begins at `from`.
pub fn device_in_range(address: DeviceAddress, rights: u8, given: &[u8], from: usize) -> bool
    requires { from + units_length ≤ length given.now }
    ensures { result ≡ device_in_range address rights (drop from given.now) }
{
    let fits = address_fits(address.0);
    let first = device_records::in_set(given, from, 0);
    let last = device_records::in_set(given, from, DeviceAddress::NO_UNIT);
    fits & (rights <= 1) & first & !last
}

// .. and "one octet 0".
fn device_fits(rec: &[u8]) -> bool
    requires { length rec.now ≡ size Devices }
    ensures { result ≡ device_fits rec.now }
{
    let address = DeviceAddress(octets::word_at(rec, 0));
    let in_range = device_in_range(address, rec[RIGHTS], rec, UNITS);
    in_range & (rec[ZERO] == 0)
}

// "name 13 padded with 0x00": the octets behind the name.
fn padded(rec: &[u8]) -> bool
    requires { 2 < length rec.now }
    ensures { result ≡ all (λ o. eqb o 0x00) (name_padding rec.now) }
{
    let end = layouts::NAME + rec[layouts::NAME_LENGTH] as usize;
    if rec.len() < end {
        return true;
    }
    octets::all_at(rec, end, rec.len() - end, 0x00)
}

// Address, name length 0 to 13, name padded with 0x00.
fn group_fits(rec: &[u8]) -> bool
    requires { length rec.now ≡ size Groups }
    ensures { result ≡ group_fits rec.now }
{
    let address = address_fits(octets::word_at(rec, 0));
    let padding = padded(rec);
    address & (rec[layouts::NAME_LENGTH] <= layouts::LONGEST_NAME) & padding
}

// "each device and unit named exists; each group named exists"
pub fn member_fits(member: [u8; 5], devices: &[u8], groups: &[u8]) -> bool
    ensures { result ≡ member_fits (table Devices devices.now) (table Groups groups.now) member }
{
    let group_there = existing::group_exists(groups, layouts::member_group(member));
    let device = layouts::member_device(member);
    let unit_there = existing::unit_exists(devices, device, layouts::member_unit(member));
    group_there & unit_there
}

// "each admitted or D'0000": the device that a session's record names.
fn session_fits(rec: &[u8], devices: &[u8]) -> bool
    requires { length rec.now ≡ size Sessions }
    ensures { result ≡ session_fits (table Devices devices.now) rec.now }
{
    existing::device_exists(devices, DeviceAddress(octets::word_at(rec, 0)))
}

// A used record of a table, by the table's rule: an arm for each, since each rule asks other things.
pub fn fits(kind: Kind, rec: &[u8], devices: &[u8], groups: &[u8]) -> bool
    requires { length rec.now ≡ size kind }
    ensures { result ≡ fits kind (table Devices devices.now) (table Groups groups.now) rec.now }
{
    match kind {
        Kind::Devices => device_fits(rec),
        Kind::Binds => faults::bind_fits(bind_records::bind_at(rec, 0), devices, groups),
        Kind::Groups => group_fits(rec),
        Kind::Members => member_fits(layouts::member_at(rec, 0), devices, groups),
        Kind::Sessions => session_fits(rec, devices),
    }
}
