// The index of the bind table (document 02, request 3): ranks of its entries, and whether it is right.
#![tactic(auto)]

mod searching;

ghost use Rattle.std.specs.Prelude.{◌≡◌, ◌+◌, ◌*◌, ◌/◌, ◌^◌, ◌<◌, ◌≤◌, leb, length, take};
ghost use Rattle.rules.specs.Types.{Binds};
ghost use Rattle.rules.specs.Lists.{◌&◌};
ghost use Rattle.rules.specs.Layout.{size, full};
ghost use Rattle.rules.specs.Frame.{table};
ghost use Rattle.index_rules.specs.Index.{bind_key, ranks, index_right, entry_used, entry_rank};
ghost use Rattle.index_rules.specs.Walks.{rising_from, below};

use bind_records::SOURCE;
use layouts::BIND;
use records::FREE;
pub use searching::{count_below, count_from};

// How many ranks one source device has.
pub const DEVICE_RANK: u64 = 0x1_0000_0000;

// A bind's key from its source device, source unit, UID and interface type, each a digit of one number.
fn key_of(device: u16, unit: u8, uid: u16, role: u16) -> u64
    requires { (uid < 32768) × (role < 2) }
    ensures { (result ≡ ((device * 256 + unit) * 32768 + uid) * 2 + role) × (result < 2 ^ 40) }
{
    ((device as u64 * 256 + unit as u64) * 32768 + uid as u64) * 2 + role as u64
}

fn bind_key(bind: [u8; 8]) -> u64
    ensures { (result ≡ bind_key bind) × (result < 2 ^ 40) }
{
    let source = bind_records::bind_source(bind);
    key_of(
        source.0,
        bind_records::bind_source_unit(bind),
        bind_records::bind_uid(bind),
        bind_records::bind_role(bind),
    )
}

// The rank of the bind at a position: its key, then the position.
pub fn rank_at(binds: &[u8], position: u8) -> u64
    requires { position < length binds.now / size Binds }
    ensures { (result ≡ entry_rank (table Binds binds.now) position) × (result < 2 ^ 48) }
{
    let at = position as usize * BIND;
    bind_key(bind_records::bind_at(binds, at)) * 256 + position as u64
}

// Is the bind that an entry names there, and in use?
pub fn is_used(binds: &[u8], position: u8) -> bool
    ensures { result ≡ entry_used (table Binds binds.now) position }
{
    let place = position as usize;
    if binds.len() / BIND <= place {
        return false;
    }
    !records::is_free(records::record_at(binds, BIND, place * BIND))
}

// Is it there, with a rank below this one? A search by halving asks it; mostly the source device decides. A bind is asked for its rank here and in `is_used`
// whether it is free: what both ask before is one line.
pub fn is_below(binds: &[u8], position: u8, rank: u64) -> bool
    ensures { result ≡ below (table Binds binds.now) rank position }
{
    let place = position as usize;
    if binds.len() / BIND <= place {
        return false;
    }
    let device = octets::word_at(binds, place * BIND + SOURCE) as u64;
    let wanted = rank / DEVICE_RANK;
    if device != wanted {
        return device < wanted;
    }
    rank_at(binds, position) < rank
}

// How many binds are in use: so many entries the index has. `entries::number_of_binds` counts them in the words of another definition; one function for both
// would need both contracts.
fn count_used(binds: &[u8]) -> usize
    ensures { result ≡ length (ranks 0 (table Binds binds.now)) }
{
    binds
        .chunks_exact(BIND)
        .filter(|record| !records::is_free(record))
        .count()
}

// Does an entry name a used bind, of rank `low` or above?
fn entry_from(binds: &[u8], position: u8, low: u64) -> bool
    ensures { result ≡ (entry_used (table Binds binds.now) position & leb low (entry_rank (table Binds binds.now) position)) }
{
    if !is_used(binds, position) {
        return false;
    }
    low <= rank_at(binds, position)
}

// Do the first n entries name used binds, by rising rank?
fn rising_used(binds: &[u8], index: &[u8], n: usize) -> bool
    requires { n ≤ length index.now }
    ensures { result ≡ rising_from (table Binds binds.now) 0 (take n index.now) }
{
    let mut low: u64 = 0;
    for position in &index[..n] {
        if !entry_from(binds, *position, low) {
            return false;
        }
        low = rank_at(binds, *position) + 1;
    }
    true
}

// Outcome 30: "index of wrong length or content". As many entries as binds in use, by strictly rising rank, name each of them once; then 0xFF to the end.
#[tactic(auto, using(crate::proofs::Checking::used_few))]
pub fn index_right(binds: &[u8], index: &[u8]) -> bool
    requires { length binds.now ≤ full Binds }
    ensures { result ≡ index_right (table Binds binds.now) index.now }
{
    if index.len() != binds.len() / BIND {
        return false;
    }
    let n = count_used(binds);
    let ordered = rising_used(binds, index, n);
    let rest = octets::all_at(index, n, index.len() - n, FREE);
    ordered & rest
}
