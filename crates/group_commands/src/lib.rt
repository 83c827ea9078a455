// Delete Group, Add to Group, Remove from Group (document 01, Commands and codes).
#![tactic(auto)]

ghost use Rattle.std.specs.Prelude.{◌≡◌, ◌%◌, ◌<◌, length};
ghost use Rattle.words.specs.Names.{flag_set, invalid_argument};
ghost use Rattle.rules.specs.Types.{Devices, Binds, Groups, Members};
ghost use Rattle.rules.specs.Lists.{ask, any};
ghost use Rattle.rules.specs.Octets.{octets, joined};
ghost use Rattle.rules.specs.Tables.{used, matches, addressed, store, wipe, written};
ghost use Rattle.rules.specs.Layout.{address_length, size, to_this_group, in_group};
ghost use Rattle.rules.specs.Frame.{table};
ghost use Rattle.rules.specs.Sound.{member_fits};
ghost use Rattle.rules.specs.Payloads.{member_of, group_named};
ghost use Rattle.rules.specs.Commands.{addition, removal};
ghost use Rattle.changing.specs.Changing.{coded, coding};
ghost use Rattle.group_commands.specs.Grouping.{deleted, deleting};

use bind_records::DESTINATION;
use layouts::{BIND, GROUP, MEMBER};
use words::{Code, Fields, GroupAddress};

// Where a bind names the group: the flag and the group's address.
#[tactic(auto, unfolding(rules::specs::Octets::joined))]
fn flagged_octets(group: GroupAddress) -> [u8; 2]
    requires { group.0 < 32768 }
    ensures { result ≡ octets (joined flag_set group.0) }
{
    layouts::address_octets(octets::flagged(Fields::SET, group.0))
}

// Is there a bind to the group that the payload names?
pub fn is_bound(binds: &[u8], payload: &[u8]) -> bool
    requires { length payload.now ≡ address_length }
    ensures { result ≡ any (to_this_group (group_named payload.now)) (used (table Binds binds.now)) }
{
    let flagged = flagged_octets(payloads::group_named(payload));
    records::has(binds, BIND, DESTINATION, &flagged)
}

// Delete Group takes the group, its members and the binds to it.
fn free_group(binds: &mut [u8], groups: &mut [u8], members: &mut [u8], group: GroupAddress)
    requires { (length binds.old % size Binds ≡ 0) × (length groups.old % size Groups ≡ 0)
        × (length members.old % size Members ≡ 0) × (group.0 < 32768) }
    ensures { (binds.new ≡ written (size Binds) (wipe (to_this_group group)) binds.old)
        × (groups.new ≡ written (size Groups) (wipe (addressed group.0)) groups.old)
        × (members.new ≡ written (size Members) (wipe (in_group group)) members.old) }
{
    let flagged = flagged_octets(group);
    let address = layouts::address_octets(group.0);
    records::free_matching(binds, BIND, DESTINATION, &flagged);
    records::free_matching(groups, GROUP, 0, &address);
    records::free_matching(members, MEMBER, 0, &address);
}

// Delete Group: the group, its members and the binds to it become free.
pub fn delete_group(binds: &mut [u8], groups: &mut [u8], members: &mut [u8], payload: &[u8]) -> Code
    requires { (length payload.now ≡ address_length) × (length binds.old % size Binds ≡ 0)
        × (length groups.old % size Groups ≡ 0) × (length members.old % size Members ≡ 0) }
    ensures { deleted result binds.new groups.new members.new
        ≡ deleting (group_named payload.now) binds.old groups.old members.old }
{
    let group = payloads::group_named(payload);
    if !existing::group_exists(groups, group) {
        return Code::invalid_argument();
    }
    free_group(binds, groups, members, group);
    Code::ok()
}

// Add to Group: group, device and unit of the payload, if they exist.
pub fn add_to_group(devices: &[u8], groups: &[u8], members: &mut [u8], payload: &[u8]) -> Code
    requires { (length payload.now ≡ size Members) × (length members.old % size Members ≡ 0) }
    ensures { coded result members.new
        ≡ coding (size Members) (ask (member_fits (table Devices devices.now) (table Groups groups.now) (member_of payload.now))
        invalid_argument (addition (member_of payload.now) (table Members members.old)))
        (store (member_of payload.now)) members.old }
{
    let member = payloads::member_of(payload);
    if !fitting::member_fits(member, devices, groups) {
        return Code::invalid_argument();
    }
    changing::add(members, MEMBER, &member)
}

// Remove from Group: the member becomes free.
pub fn remove_from_group(members: &mut [u8], payload: &[u8]) -> Code
    requires { (length payload.now ≡ size Members) × (length members.old % size Members ≡ 0) }
    ensures { coded result members.new
        ≡ coding (size Members) (removal (matches 0 (member_of payload.now)) (table Members members.old))
        (wipe (matches 0 (member_of payload.now))) members.old }
{
    let member = payloads::member_of(payload);
    changing::remove(members, MEMBER, 0, &member)
}
