// Get Group Info (document 01, Commands and codes): a group's name and its members.
#![tactic(auto)]

ghost use Rattle.std.specs.Prelude.{◌≡◌, true, ◌∷◌, ◌+◌, ◌*◌, ◌≤◌, length};
ghost use Rattle.words.specs.Names.{ok, header_length, longest};
ghost use Rattle.rules.specs.Types.{Groups, Members};
ghost use Rattle.rules.specs.Lists.{all};
ghost use Rattle.rules.specs.Octets.{over};
ghost use Rattle.rules.specs.Units.{ordered};
ghost use Rattle.rules.specs.Tables.{used};
ghost use Rattle.rules.specs.Layout.{address_length, size, most, longest_name, name_length, full};
ghost use Rattle.rules.specs.Frame.{table};
ghost use Rattle.rules.specs.Sound.{group_fits};
ghost use Rattle.rules.specs.Payloads.{group_named};
ghost use Rattle.rules.specs.Recipients.{members_of};
ghost use Rattle.rules.specs.Commands.{info_head, info};
ghost use Rattle.group_info.specs.Informing.{informing};

use layouts::{ADDRESS, GROUP, NAME, NAME_LENGTH};
use words::{Code, GroupAddress};

// Where the name stands in the reply: behind 0x00 and its length.
const REPLY_NAME: usize = 2;

// What stands before the members: 0x00, name length, name, number of members.
fn write_head(record: &[u8], count: usize, out: &mut [u8])
    requires { (length «record».now ≡ size Groups) × (name_length «record».now ≤ longest_name)
        × (count ≤ most Members) × (longest ≤ header_length + length out.old) }
    ensures { out.new ≡ over (ok.0 ∷ info_head «record».now count) out.old }
{
    let n = record[NAME_LENGTH] as usize;
    let end = n + NAME;
    let at = n + REPLY_NAME;
    octets::write_at(out, 0, &[Code::OK.0, record[NAME_LENGTH]]);
    octets::write_at(out, REPLY_NAME, &record[NAME..end]);
    octets::write_at(out, at, &layouts::address_octets(count as u16));
}

// The reply for the group in this record.
fn write_info(record: &[u8], members: &[u8], group: GroupAddress, out: &mut [u8]) -> usize
    requires { (length «record».now ≡ size Groups) × (name_length «record».now ≤ longest_name)
        × (length members.now ≤ full Members) × (longest ≤ header_length + length out.old) }
    ensures { (result ≡ length (ok.0 ∷ info «record».now (ordered (members_of (table Members members.now) group))))
        × (out.new
        ≡ over (ok.0 ∷ info «record».now (ordered (members_of (table Members members.now) group))) out.old) }
{
    let behind = record[NAME_LENGTH] as usize + REPLY_NAME + ADDRESS;
    let count = delivery::members_in_order(&mut out[behind..], members, group, None);
    write_head(record, count, out);
    behind + 3 * count
}

// Get Group Info: 0x02 if the group is absent, else its name and its members.
pub fn get_group_info(groups: &[u8], members: &[u8], payload: &[u8], out: &mut [u8]) -> usize
    requires { (all group_fits (used (table Groups groups.now)) ≡ true) × (length members.now ≤ full Members)
        × (length payload.now ≡ address_length) × (longest ≤ header_length + length out.old) }
    ensures { (result ≡ length (informing (table Groups groups.now) (table Members members.now) (group_named payload.now)))
        × (out.new
        ≡ over (informing (table Groups groups.now) (table Members members.now) (group_named payload.now))
        out.old) }
{
    let group = payloads::group_named(payload);
    let Some(at) = records::find(groups, GROUP, 0, &layouts::address_octets(group.0)) else {
        return changing::write_code(out, Code::invalid_argument());
    };
    write_info(records::record_at(groups, GROUP, at), members, group, out)
}
