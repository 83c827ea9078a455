// "Tables are sound if" (document 01, Tables): each rule is one check, over any table.
#![tactic(auto)]

ghost use Rattle.std.specs.Prelude.{◌≡◌, Bool, ◌*◌, ◌<◌, ◌≤◌, length};
ghost use Rattle.rules.specs.Types.{Devices, Groups};
ghost use Rattle.rules.specs.Lists.{all};
ghost use Rattle.rules.specs.Tables.{Rec, records, used};
ghost use Rattle.rules.specs.Layout.{size};
ghost use Rattle.rules.specs.Frame.{table};
ghost use Rattle.lent.specs.Held.{viewed};
ghost use Rattle.rules.specs.Sound.{whole_records, fits, distinct, sound_table, sound};
ghost use Rattle.soundness.specs.Asking.{Computes, free_or, not_again};

use lent::View;
use words::Kind;

// "each length is a multiple of its record size and within the limit"
pub fn whole_records(given: &[u8], size: usize, most: usize) -> bool
    requires { (0 < size) × (most * size ≤ 65535) }
    ensures { result ≡ whole_records size most given.now }
{
    (given.len() % size == 0) & (given.len() <= most * size)
}

// "each record is free or has its fields in range": does each record in use pass the test?
pub fn all_used<F: Fn(&[u8]) -> bool>(table: &[u8], size: usize, fits: F) -> bool
    requires some { 0 < size }
    requires callable { (r : _) → length r.now ≡ size → F.pre fits r }
    ensures { (q : Rec → Bool) → Computes F.Fn fits size q → result ≡ all q (used (records size table.now)) }
{
    for record in table.chunks_exact(size) {
        if !records::is_free(record) && !fits(record) {
            return false;
        }
    }
    true
}

// .. a table of this kind
fn all_fit(kind: Kind, given: &[u8], devices: &[u8], groups: &[u8]) -> bool
    ensures { result ≡ all (fits kind (table Devices devices.now) (table Groups groups.now))
        (used (table kind given.now)) }
{
    let shape = layouts::shape_of(kind);
    all_used(given, shape.size, |record| {
        fitting::fits(kind, record, devices, groups)
    })
}

// Is the record free, or do its first `n` octets begin no later record in use?
fn free_or_last(record: &[u8], later: &[u8], size: usize, n: usize) -> bool
    requires { (0 < size) × (n ≤ size) × (length «record».now ≡ size) }
    ensures { result ≡ free_or (not_again n (records size later.now)) «record».now }
{
    if records::is_free(record) {
        return true;
    }
    !records::has(later, size, 0, &record[..n])
}

// "no address is there twice in devices or groups, no used record twice in binds or members"
pub fn distinct(given: &[u8], size: usize, n: usize) -> bool
    requires { (0 < size) × (n ≤ size) }
    ensures { result ≡ distinct n (records size given.now) }
{
    let mut rest = given;
    while let Some((record, later)) = rest.split_at_checked(size) {
        if !free_or_last(record, later, size, n) {
            return false;
        }
        rest = later;
    }
    true
}

// One table, by its octets and by what exists. A table of a wrong length is not looked through: it may have any number of records.
fn table_sound(kind: Kind, given: &[u8], devices: &[u8], groups: &[u8]) -> bool
    ensures { result ≡ sound_table kind (table Devices devices.now) (table Groups groups.now) given.now }
{
    let shape = layouts::shape_of(kind);
    if !whole_records(given, shape.size, shape.most) {
        return false;
    }
    let fit = all_fit(kind, given, devices, groups);
    let once = distinct(given, shape.size, shape.key);
    fit & once
}

// Are the tables sound? A call on tables that are not changes nothing (document 01, Outcomes, 16). Always inlined: five slices by value, and a frame of its
// own, would stand on the stack of each call that asks it.
#[inline(always)]
pub fn sound(tables: View<'_>) -> bool
    ensures { result ≡ sound (viewed tables.entry) }
{
    let devices = tables.devices;
    let groups = tables.groups;
    let d = table_sound(Kind::Devices, devices, devices, groups);
    let b = table_sound(Kind::Binds, tables.binds, devices, groups);
    let g = table_sound(Kind::Groups, groups, devices, groups);
    let m = table_sound(Kind::Members, tables.members, devices, groups);
    let s = table_sound(Kind::Sessions, tables.sessions, devices, groups);
    d & (b & (g & (m & s)))
}
