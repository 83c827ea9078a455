// The index after a change of the binds (document 02, request 3): it is kept right in itself, by moving its entries. Entries of binds that are free now go,
// and the one that was added goes where its rank belongs. An addition takes the first free record, so that its position is known before.
#![tactic(auto)]

ghost use Rattle.std.specs.Prelude.{◌≡◌, ◌≤◌, length};
ghost use Rattle.rules.specs.Types.{Binds};
ghost use Rattle.rules.specs.Layout.{full};
ghost use Rattle.rules.specs.Frame.{table};
ghost use Rattle.index_rules.specs.Index.{right_index};
ghost use Rattle.index_rules.specs.Walks.{Listed, insert_at, used_only, put_in_used, first_free, Stale};

use layouts::BIND;
use records::FREE;

// The position that an addition takes; where no record is free, the number of records: a position is an octet of the index, and the place that `records`
// finds for a record to store is none.
pub fn first_free(binds: &[u8]) -> u8
    requires { length binds.now ≤ full Binds }
    ensures { result ≡ first_free (table Binds binds.now) }
{
    let all = binds.len() / BIND;
    let position = binds.chunks_exact(BIND).position(records::is_free);
    position.unwrap_or(all) as u8
}

// The entries of used binds move to the front, and 0xFF fills the rest.
fn keep_used(binds: &[u8], index: &mut [u8])
    ensures { index.new ≡ used_only (table Binds binds.now) index.old }
{
    // In place, and so by places: std has no `retain` for a slice.
    let mut kept = 0;
    for i in 0..index.len() {
        let position = index[i];
        if indexing::is_used(binds, position) {
            index[kept] = position;
            kept += 1;
        }
    }
    let rest = index.len() - kept;
    octets::fill_at(index, kept, rest, FREE);
}

// Puts v in at a place, and moves those behind it up by one; the last one goes.
fn insert_at(index: &mut [u8], at: usize, v: u8)
    ensures { index.new ≡ insert_at at v index.old }
{
    let all = index.len();
    if all <= at {
        return;
    }
    index.copy_within(at..all - 1, at + 1);
    index[at] = v;
}

// Puts a position in where the rank of its bind belongs, if that is in use.
fn put_in_used(binds: &[u8], index: &mut [u8], position: u8)
    requires { Listed (table Binds binds.now) index.old }
    ensures { index.new ≡ put_in_used (table Binds binds.now) position index.old }
{
    if !indexing::is_used(binds, position) {
        return;
    }
    let rank = indexing::rank_at(binds, position);
    let at = indexing::count_below(binds, index, rank);
    insert_at(index, at, position);
}

// Makes an index right again after one change of the binds. `position` is what `first_free` said before it.
pub fn reindex(binds: &[u8], index: &mut [u8], position: u8)
    requires { Stale position (table Binds binds.now) index.old }
    ensures { index.new ≡ right_index (table Binds binds.now) }
{
    keep_used(binds, index);
    put_in_used(binds, index, position);
}
