// Create Group (document 01, Commands and codes): the smallest address not in use, a record, and the address in the reply.
#![tactic(auto)]

ghost use Rattle.std.specs.Prelude.{◌≡◌, ◌+◌, ◌%◌, ◌<◌, ◌≤◌, length};
ghost use Rattle.rules.specs.Types.{Groups};
ghost use Rattle.rules.specs.Octets.{octet};
ghost use Rattle.rules.specs.Tables.{store};
ghost use Rattle.rules.specs.Layout.{size, group_record, full};
ghost use Rattle.rules.specs.Frame.{table};
ghost use Rattle.rules.specs.Commands.{creation, new_group};
ghost use Rattle.changing.specs.Changing.{coded, coding};
ghost use Rattle.creating.specs.Creating.{made, making};

use layouts::GROUP;
use words::{Code, DeviceAddress, GroupAddress};

// The smallest address from 0x0001 that no group has.
fn new_group(groups: &[u8]) -> GroupAddress
    requires { length groups.now ≤ full Groups }
    ensures { result ≡ new_group (table Groups groups.now) }
{
    let last = DeviceAddress::LOWEST + (groups.len() / GROUP) as u16;
    for address in DeviceAddress::LOWEST..last {
        if !existing::group_exists(groups, GroupAddress(address)) {
            return GroupAddress(address);
        }
    }
    GroupAddress(last)
}

// The code of Create Group behind rights and length: the name fits, and a record is free.
fn creation(groups: &[u8], payload: &[u8]) -> Code
    requires { 1 ≤ length payload.now }
    ensures { result ≡ creation payload.now (table Groups groups.now) }
{
    if layouts::LONGEST_NAME < payload[0] {
        return Code::not_enough_resources();
    }
    if !records::has_room(groups, GROUP) {
        return Code::not_enough_resources();
    }
    Code::ok()
}

// Create Group with this address: its record goes to the first free place.
#[tactic(auto, using(crate::proofs::Created::storing))]
fn create_group(groups: &mut [u8], group: GroupAddress, payload: &[u8]) -> Code
    requires { (length payload.now ≡ 1 + octet 0 payload.now) × (length groups.old % size Groups ≡ 0) }
    ensures { coded result groups.new
        ≡ coding (size Groups) (creation payload.now (table Groups groups.old))
        (store (group_record group payload.now)) groups.old }
{
    let code = creation(groups, payload);
    if code == Code::OK {
        let record = layouts::group_record(group, payload);
        records::store(groups, GROUP, &record);
    }
    code
}

// Create Group whole: the smallest address not in use, the record, and the reply.
pub fn create(groups: &mut [u8], payload: &[u8], out: &mut [u8]) -> usize
    requires { (length payload.now ≡ 1 + octet 0 payload.now) × (length groups.old % size Groups ≡ 0)
        × (length groups.old ≤ full Groups) × (3 ≤ length out.old) }
    ensures { made result groups.new out.new ≡ making groups.old payload.now out.old }
{
    let group = new_group(groups);
    let code = create_group(groups, group, payload);
    changing::write_word(out, code, group.0)
}
