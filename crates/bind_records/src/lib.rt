// A bind's record (document 01, Tables), handled as its eight octets, copied whole: source device and unit, the destination's interface, destination and
// unit. Where it says any device, any unit or any interface: document 000, 6.2.1. No other crate knows the place of a bind's field.
#![tactic(auto)]

ghost use Rattle.std.specs.Prelude.{◌≡◌, ◌+◌, ◌≤◌, length, take, drop};
ghost use Rattle.rules.specs.Types.{Binds};
ghost use Rattle.rules.specs.Tables.{matches};
ghost use Rattle.rules.specs.Layout.{size, part_start, part_length, bind_source, bind_source_unit, bind_from, bind_role, bind_uid};
ghost use Rattle.rules.specs.Layout.{from_any_device, from_any_unit, at_any_interface, to_group, bound_group, bound_device, bind_unit, bind_to};

use layouts::{ADDRESS, BIND};
use words::{BindPart, DeviceAddress, Fields, GroupAddress};

// Where source, interface and destination stand.
pub const SOURCE: usize = 0;

const INTERFACE: usize = 3;

pub const DESTINATION: usize = 5;

pub fn bind_at(binds: &[u8], at: usize) -> [u8; 8]
    requires { at + size Binds ≤ length binds.now }
    ensures { result ≡ take (size Binds) (drop at binds.now) }
{
    records::copy_at(binds, at)
}

// Are they the same eight octets?
pub fn same_bind(bind: [u8; 8], other: [u8; 8]) -> bool
    ensures { result ≡ matches 0 other bind }
{
    bind == other
}

pub fn bind_source(bind: [u8; 8]) -> DeviceAddress
    ensures { result ≡ bind_source bind }
{
    DeviceAddress(octets::word_at(&bind, SOURCE))
}

pub fn bind_source_unit(bind: [u8; 8]) -> u8
    ensures { result ≡ bind_source_unit bind }
{
    bind[2]
}

pub fn bind_from(bind: [u8; 8]) -> u32
    ensures { result ≡ bind_from bind }
{
    layouts::unit_at(&bind, SOURCE)
}

pub fn bind_role(bind: [u8; 8]) -> u16
    ensures { result ≡ bind_role bind }
{
    octets::flag(octets::word_at(&bind, INTERFACE))
}

pub fn bind_uid(bind: [u8; 8]) -> u16
    ensures { result ≡ bind_uid bind }
{
    octets::number(octets::word_at(&bind, INTERFACE))
}

// Does the bind say any device, any unit, any interface?
pub fn from_any_device(bind: [u8; 8]) -> bool
    ensures { result ≡ from_any_device bind }
{
    bind_source(bind) == DeviceAddress::ANY
}

pub fn from_any_unit(bind: [u8; 8]) -> bool
    ensures { result ≡ from_any_unit bind }
{
    bind_source_unit(bind) == DeviceAddress::ANY_UNIT
}

pub fn at_any_interface(bind: [u8; 8]) -> bool
    ensures { result ≡ at_any_interface bind }
{
    bind_uid(bind) == Fields::ANY_INTERFACE
}

// A bind to a group has the flag of octet 6.
pub fn to_group(bind: [u8; 8]) -> bool
    ensures { result ≡ to_group bind }
{
    octets::flag(octets::word_at(&bind, DESTINATION)) == Fields::SET
}

pub fn bound_group(bind: [u8; 8]) -> GroupAddress
    ensures { result ≡ bound_group bind }
{
    GroupAddress(octets::number(octets::word_at(&bind, DESTINATION)))
}

pub fn bound_device(bind: [u8; 8]) -> DeviceAddress
    ensures { result ≡ bound_device bind }
{
    DeviceAddress(octets::number(octets::word_at(&bind, DESTINATION)))
}

pub fn bind_unit(bind: [u8; 8]) -> u8
    ensures { result ≡ bind_unit bind }
{
    bind[7]
}

pub fn bind_to(bind: [u8; 8]) -> u32
    ensures { result ≡ bind_to bind }
{
    layouts::unit_at(&bind, DESTINATION)
}

// Where a part of a bind begins, and how many octets it has.
pub fn part_start(part: BindPart) -> usize
    ensures { result ≡ part_start part }
{
    match part {
        BindPart::Whole | BindPart::Source | BindPart::SourceUnit => SOURCE,
        BindPart::Destination | BindPart::DestinationUnit => DESTINATION,
    }
}

pub fn part_length(part: BindPart) -> usize
    ensures { result ≡ part_length part }
{
    match part {
        BindPart::Whole => BIND,
        BindPart::Source | BindPart::Destination => ADDRESS,
        BindPart::SourceUnit | BindPart::DestinationUnit => ADDRESS + 1,
    }
}
