// Records of one size, one after the other (document 01, Tables): found, added and removed.
#![tactic(auto)]

ghost use Rattle.std.specs.Prelude.{◌≡◌, ◌+◌, ◌%◌, ◌<◌, ◌≤◌, length, take, drop};
ghost use Rattle.rules.specs.Lists.{any};
ghost use Rattle.rules.specs.Tables.{records, is_free, used, some_free, matches, written, store, wipe};
ghost use Rattle.records.specs.Search.{passes, place_of, found_at};

// "A free record is all 0xFF."
pub const FREE: u8 = 0xFF;

// Is this record free?
pub fn is_free(record: &[u8]) -> bool
    ensures { result ≡ is_free «record».now }
{
    record.iter().all(|octet| *octet == FREE)
}

// Is this record in use, with `want` from its place `from` on? A free record is never a match.
pub fn is_match(record: &[u8], from: usize, want: &[u8]) -> bool
    requires { from + length want.now ≤ length «record».now }
    ensures { result ≡ passes (matches from want.now) «record».now }
{
    octets::same_at(record, from, want) && !is_free(record)
}

// The first used record that has `want` from its place `from` on: what a command or a lookup names. Place and octets stay two arguments: one value of both
// would be made at every call and taken apart in every contract.
pub fn find(table: &[u8], size: usize, from: usize, want: &[u8]) -> Option<usize>
    requires { (0 < size) × (from + length want.now ≤ size) }
    ensures { result ≡ found_at 0 size (matches from want.now) (records size table.now) }
{
    table
        .chunks_exact(size)
        .position(|record| is_match(record, from, want))
        .map(|i| i * size)
}

// Is there such a record? A removal needs one, an addition none.
pub fn has(table: &[u8], size: usize, from: usize, want: &[u8]) -> bool
    requires { (0 < size) × (from + length want.now ≤ size) }
    ensures { result ≡ any (matches from want.now) (used (records size table.now)) }
{
    find(table, size, from, want).is_some()
}

// The record that a search found, where it stands.
pub fn record_at(table: &[u8], size: usize, at: usize) -> &[u8]
    requires { at + size ≤ length table.now }
    ensures { result.now ≡ take size (drop at table.now) }
{
    &table[at..at + size]
}

// The record at `at`, as an array.
pub fn copy_at<const N: usize>(table: &[u8], at: usize) -> [u8; N]
    requires { at + N ≤ length table.now }
    ensures { result ≡ take N (drop at table.now) }
{
    let mut copy = [0; N];
    copy.copy_from_slice(&table[at..at + N]);
    copy
}

// Is there a free record for an addition?
pub fn has_room(table: &[u8], size: usize) -> bool
    requires { 0 < size }
    ensures { result ≡ some_free (records size table.now) }
{
    table.chunks_exact(size).any(is_free)
}

// The first free record, where there is one.
fn first_free(table: &[u8], size: usize) -> Option<usize>
    requires { 0 < size }
    ensures { result ≡ place_of 0 size is_free (records size table.now) }
{
    table.chunks_exact(size).position(is_free).map(|i| i * size)
}

// "An addition takes the first free record, so freed room is used again." That a table is of whole records is asked here and of all that calls this: a type
// that says so would hold the slice by `&mut`, and each contract would have to say in its place that it holds the same slice still.
pub fn store(table: &mut [u8], size: usize, record: &[u8])
    requires { (0 < size) × (length table.old % size ≡ 0) × (length «record».now ≡ size) }
    ensures { table.new ≡ written size (store «record».now) table.old }
{
    if let Some(at) = first_free(table, size) {
        octets::write_at(table, at, record);
    }
}

// "all matches become free": every removal of document 01 is one of these.
pub fn free_matching(table: &mut [u8], size: usize, from: usize, want: &[u8])
    requires { (0 < size) × (from + length want.now ≤ size) × (length table.old % size ≡ 0) }
    ensures { table.new ≡ written size (wipe (matches from want.now)) table.old }
{
    // By places: of `chunks_exact_mut`, std doesn't say what a record that is written leaves of the table.
    for at in (0..table.len()).step_by(size) {
        if octets::same_at(table, at + from, want) {
            octets::fill_at(table, at, size, FREE);
        }
    }
}
