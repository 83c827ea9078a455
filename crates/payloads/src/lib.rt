// What a payload says (document 01, Tables): the top bit of a source, a group's or a member's address is ignored, and stored as 0.
#![tactic(auto)]

ghost use Rattle.std.specs.Prelude.{◌≡◌, cond, ◌%◌, ◌<◌, eqb, length, take};
ghost use Rattle.rules.specs.Types.{Source, Binds, Members};
ghost use Rattle.rules.specs.Layout.{size, address_length, part_start, part_length};
ghost use Rattle.rules.specs.Payloads.{bind_of, wanted, member_of, group_named};

use bind_records::SOURCE;
use words::{BindPart, GroupAddress};

// The bind of a payload: its eight octets, the source's top bit 0.
pub fn bind_of(payload: &[u8]) -> [u8; 8]
    requires { length payload.now ≡ size Binds }
    ensures { result ≡ bind_of payload.now }
{
    [
        octets::low_seven(payload[0]),
        payload[1],
        payload[2],
        payload[3],
        payload[4],
        payload[5],
        payload[6],
        payload[7],
    ]
}

// The member of a payload: group, device, unit, the two top bits 0.
pub fn member_of(payload: &[u8]) -> [u8; 5]
    requires { length payload.now ≡ size Members }
    ensures { result ≡ member_of payload.now }
{
    [
        octets::low_seven(payload[0]),
        payload[1],
        octets::low_seven(payload[2]),
        payload[3],
        payload[4],
    ]
}

// The group that a payload of two octets names.
pub fn group_named(payload: &[u8]) -> GroupAddress
    requires { length payload.now ≡ address_length }
    ensures { (result ≡ group_named payload.now) × (result.0 < 32768) }
{
    GroupAddress(octets::join(octets::low_seven(payload[0]), payload[1]))
}

// The first octet that a removal or a read looks for: a source's top bit is ignored, a destination's is its flag.
fn first_wanted(part: BindPart, first: u8) -> u8
    ensures { result ≡ cond (eqb (part_start part) (part_start Source)) (first % 128) first }
{
    if bind_records::part_start(part) == SOURCE {
        return octets::low_seven(first);
    }
    first
}

// The octets that a removal or a read by this part looks for: the payload's, in the first places of eight.
pub fn wanted(part: BindPart, payload: &[u8]) -> [u8; 8]
    requires { length payload.now ≡ part_length part }
    ensures { take (length payload.now) result ≡ wanted part payload.now }
{
    let mut want = [0u8; 8];
    octets::put(&mut want, payload);
    want[0] = first_wanted(part, payload[0]);
    want
}
