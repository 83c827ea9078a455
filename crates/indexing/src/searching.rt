// Where a rank stands in an index: its entries go by rising rank, so it is found by halving.
ghost use Rattle.std.specs.Prelude.{◌≡◌, ◌≤◌, length};
ghost use Rattle.rules.specs.Types.{Binds};
ghost use Rattle.rules.specs.Frame.{table};
ghost use Rattle.index_rules.specs.Walks.{ranked, Listed};

use crate::is_below;

// How far on the end of a run is looked for first: most switches have one bind or two.
const NEAR: usize = 2;

// How many entries have a lower rank, where it is known to be no fewer than `from` and no more than `to`. What fills the rest of the index has none.
fn count_between(binds: &[u8], index: &[u8], from: usize, to: usize, rank: u64) -> usize
    requires { Listed (table Binds binds.now) index.now × (from ≤ ranked (table Binds binds.now) rank index.now)
        × (ranked (table Binds binds.now) rank index.now ≤ to) × (to ≤ length index.now) }
    ensures { result ≡ ranked (table Binds binds.now) rank index.now }
{
    from + index[from..to].partition_point(|position| is_below(binds, *position, rank))
}

// .. where it is no fewer than `from`, and mostly few more: the entry a little further on is looked at first.
pub fn count_from(binds: &[u8], index: &[u8], from: usize, rank: u64) -> usize
    requires { Listed (table Binds binds.now) index.now × (from ≤ ranked (table Binds binds.now) rank index.now) }
    ensures { result ≡ ranked (table Binds binds.now) rank index.now }
{
    let all = index.len();
    if all - from <= NEAR {
        return count_between(binds, index, from, all, rank);
    }
    let near = from + NEAR;
    if is_below(binds, index[near], rank) {
        return count_between(binds, index, near, all, rank);
    }
    count_between(binds, index, from, near, rank)
}

// .. where nothing is known.
pub fn count_below(binds: &[u8], index: &[u8], rank: u64) -> usize
    requires { Listed (table Binds binds.now) index.now }
    ensures { result ≡ ranked (table Binds binds.now) rank index.now }
{
    count_between(binds, index, 0, index.len(), rank)
}
