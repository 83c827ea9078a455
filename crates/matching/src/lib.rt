// Which records a message is about (document 01, Recipients): the binds that match it, the members of a group.
#![tactic(auto)]

ghost use Rattle.std.specs.Prelude.{◌≡◌, ◌^◌, ◌<◌, length};
ghost use Rattle.rules.specs.Types.{Binds, Members};
ghost use Rattle.rules.specs.Layout.{size, member_number, in_group};
ghost use Rattle.rules.specs.Message.{sender};
ghost use Rattle.rules.specs.Recipients.{bind_matches};
ghost use Rattle.records.specs.Search.{passes};

use words::{Fields, GroupAddress};

// The sender's number.
pub fn sender(f: Fields) -> u32
    ensures { result ≡ sender f }
{
    layouts::unit_number(f.source, f.source_unit)
}

// Is the record used, and of this group?
pub fn is_member(record: &[u8], group: GroupAddress) -> bool
    requires { length «record».now ≡ size Members }
    ensures { result ≡ passes (in_group group) «record».now }
{
    records::is_match(record, 0, &layouts::address_octets(group.0))
}

// The member in the record, as one number.
pub fn member_number(record: &[u8]) -> u32
    requires { length «record».now ≡ size Members }
    ensures { (result ≡ member_number «record».now) × (result < 2 ^ 24) }
{
    let member = layouts::member_at(record, 0);
    layouts::unit_number(layouts::member_device(member), layouts::member_unit(member))
}

// Does the bind match the message? Source device, source unit and UID are equal, or the bind says any; the interface type is equal.
fn bind_matches(f: Fields, bind: [u8; 8]) -> bool
    ensures { result ≡ bind_matches f bind }
{
    let any_device = bind_records::from_any_device(bind);
    let any_unit = bind_records::from_any_unit(bind);
    let any_interface = bind_records::at_any_interface(bind);
    let source = bind_records::bind_source(bind);
    let device = any_device | (source == f.source);
    let unit = any_unit | (bind_records::bind_source_unit(bind) == f.source_unit);
    let uid = any_interface | (bind_records::bind_uid(bind) == f.uid);
    let role = bind_records::bind_role(bind) == f.interface_type;
    device & unit & uid & role
}

// Is the record used, and does it match the message?
pub fn is_match(record: &[u8], f: Fields) -> bool
    requires { length «record».now ≡ size Binds }
    ensures { result ≡ passes (bind_matches f) «record».now }
{
    !records::is_free(record) & bind_matches(f, bind_records::bind_at(record, 0))
}
