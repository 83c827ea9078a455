// The records (document 01, Tables): how many octets a record of each table has, how many there may be, and its fields, read and built; those of a bind
// stand in `bind_records`, those of a device in `device_records`, those of an old device in `carrying`. No other crate knows the place of a field.
#![tactic(auto)]

mod members;

ghost use Rattle.std.specs.Prelude.{◌≡◌, ◌+◌, ◌^◌, ◌<◌, ◌≤◌, length};
ghost use Rattle.rules.specs.Octets.{octets};
ghost use Rattle.rules.specs.Units.{unit_number, unit_at};
ghost use Rattle.rules.specs.Layout.{size, most, key, group_record, longest_name};

pub use members::{member_at, member_device, member_group, member_unit};
use words::{DeviceAddress, GroupAddress, Kind};

// The octets of a record in each table.
pub const DEVICE: usize = 36;

pub const BIND: usize = 8;

pub const GROUP: usize = 16;

pub const MEMBER: usize = 5;

pub const SESSION: usize = 2;

// How many records there may be in each.
pub const MOST_DEVICES: usize = 64;

pub const MOST_BINDS: usize = 64;

pub const MOST_GROUPS: usize = 16;

pub const MOST_MEMBERS: usize = 128;

pub const MOST_SESSIONS: usize = 8;

// The octets of an address.
pub const ADDRESS: usize = 2;

// Where name length and name stand in a group's record, the device in a member's.
pub const NAME_LENGTH: usize = 2;

pub const NAME: usize = 3;

pub const MEMBER_DEVICE: usize = 2;

// The most octets of a name.
pub const LONGEST_NAME: u8 = 13;

// The octets of a record, how many records there may be, and how many octets must not be there twice: those of its address, or the whole record.
#[derive(Drop)]
pub struct Shape {
    pub size: usize,
    pub most: usize,
    pub key: usize,
}

pub fn shape_of(kind: Kind) -> Shape
    ensures size { result.size ≡ size kind }
    ensures most { result.most ≡ most kind }
    ensures key { result.key ≡ key kind }
{
    match kind {
        Kind::Devices => Shape {
            size: DEVICE,
            most: MOST_DEVICES,
            key: ADDRESS,
        },
        Kind::Binds => Shape {
            size: BIND,
            most: MOST_BINDS,
            key: BIND,
        },
        Kind::Groups => Shape {
            size: GROUP,
            most: MOST_GROUPS,
            key: ADDRESS,
        },
        Kind::Members => Shape {
            size: MEMBER,
            most: MOST_MEMBERS,
            key: MEMBER,
        },
        Kind::Sessions => Shape {
            size: SESSION,
            most: MOST_SESSIONS,
            key: ADDRESS,
        },
    }
}

// An address as a record begins with it.
pub fn address_octets(w: u16) -> [u8; 2]
    ensures { result ≡ octets w }
{
    [octets::high(w), octets::low(w)]
}

// A unit as one number, its device's and then its own: rising device, then unit, is rising number.
pub fn unit_number(device: DeviceAddress, unit: u8) -> u32
    ensures { (result ≡ unit_number device unit) × (result < 2 ^ 24) }
{
    device.0 as u32 * 256 + unit as u32
}

// The unit in the three octets from `at` on: device, unit.
pub fn unit_at(s: &[u8], at: usize) -> u32
    requires { at + 3 ≤ length s.now }
    ensures { (result ≡ unit_at at s.now) × (result < 2 ^ 24) }
{
    unit_number(DeviceAddress(octets::word_at(s, at)), s[at + 2])
}

// The record of a new group: its address, then name length and name as they came, padded with 0x00.
pub fn group_record(group: GroupAddress, named: &[u8]) -> [u8; 16]
    requires { length named.now ≤ 1 + longest_name }
    ensures { result ≡ group_record group named.now }
{
    let mut record = [0x00u8; 16];
    octets::put(&mut record[NAME_LENGTH..], named);
    record[0] = octets::high(group.0);
    record[1] = octets::low(group.0);
    record
}
