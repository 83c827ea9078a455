// A member's five octets: group, device, unit.
ghost use Rattle.std.specs.Prelude.{◌≡◌, ◌+◌, ◌≤◌, length, take, drop};
ghost use Rattle.rules.specs.Types.{Members};
ghost use Rattle.rules.specs.Layout.{size, member_group, member_device, member_unit};

use crate::MEMBER_DEVICE;
use words::{DeviceAddress, GroupAddress};

// A member, copied whole.
pub fn member_at(members: &[u8], at: usize) -> [u8; 5]
    requires { at + size Members ≤ length members.now }
    ensures { result ≡ take (size Members) (drop at members.now) }
{
    records::copy_at(members, at)
}

pub fn member_group(member: [u8; 5]) -> GroupAddress
    ensures { result ≡ member_group member }
{
    GroupAddress(octets::word_at(&member, 0))
}

pub fn member_device(member: [u8; 5]) -> DeviceAddress
    ensures { result ≡ member_device member }
{
    DeviceAddress(octets::word_at(&member, MEMBER_DEVICE))
}

pub fn member_unit(member: [u8; 5]) -> u8
    ensures { result ≡ member_unit member }
{
    member[4]
}
