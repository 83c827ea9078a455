// The binds that a read gives (document 02, request 1; document 000, 6.2.5.9 to 6.2.5.13): one loop writes entries, whatever they are asked by.
#![tactic(auto)]

ghost use Rattle.std.specs.Prelude.{◌≡◌, not, ◌∷◌, ◌+◌, ◌*◌, ◌≤◌, length};
ghost use Rattle.words.specs.Names.{ok, header_length, longest};
ghost use Rattle.rules.specs.Types.{Binds, Index, Part};
ghost use Rattle.rules.specs.Octets.{over};
ghost use Rattle.rules.specs.Tables.{bytes, is_free, used, matches};
ghost use Rattle.rules.specs.Layout.{size, part_length};
ghost use Rattle.rules.specs.Frame.{table};
ghost use Rattle.rules.specs.Sessions.{index_length, filter_length, most_entries, chosen, entries_by, listing};

use layouts::BIND;
use words::{BindPart, Code, Filter};

// The most entries that a reply holds, and where the first stands: behind the code and their number.
const MOST: usize = 60;

const FIRST: usize = 2;

// Where the number of entries stands in a payload by index, behind the start index.
const NUMBER: usize = 2;

// Is the bind in use?
fn in_use(bind: &[u8]) -> bool
    ensures { result ≡ not (is_free bind.now) }
{
    !records::is_free(bind)
}

// How many binds there are: what a session starts with.
pub fn number_of_binds(binds: &[u8]) -> usize
    ensures { result ≡ length (used (table Binds binds.now)) }
{
    binds.chunks_exact(BIND).filter(|bind| in_use(bind)).count()
}

// Writes the first `most` binds from this index on that have `want` from their place `from` on, one after the other.
fn write_entries(
    binds: &[u8],
    index: usize,
    most: usize,
    from: usize,
    want: &[u8],
    out: &mut [u8],
) -> usize
    requires { (from + length want.now ≤ size Binds) × (most ≤ most_entries) × (most_entries * size Binds ≤ length out.old) }
    ensures { (result ≡ length (chosen index most (matches from want.now) (table Binds binds.now)))
        × (out.new ≡ over (bytes (chosen index most (matches from want.now) (table Binds binds.now))) out.old) }
{
    let chosen = binds
        .chunks_exact(BIND)
        .filter(|bind| in_use(bind))
        .skip(index)
        .filter(|bind| octets::same_at(bind, from, want))
        .take(most);
    // Counted by hand, since their number is wanted behind the loop.
    let mut count = 0;
    for entry in chosen {
        octets::write_at(out, count * BIND, entry);
        count += 1;
    }
    count
}

// The reply to a read, from this index on: 0x00, the number of entries, the entries.
#[tactic(auto, using(crate::proofs::Listed::few))]
fn write_listing(
    binds: &[u8],
    index: usize,
    most: usize,
    from: usize,
    want: &[u8],
    out: &mut [u8],
) -> usize
    requires { (from + length want.now ≤ size Binds) × (most ≤ most_entries) × (longest ≤ header_length + length out.old) }
    ensures { (result ≡ length (ok.0 ∷ listing (chosen index most (matches from want.now) (table Binds binds.now))))
        × (out.new
        ≡ over (ok.0 ∷ listing (chosen index most (matches from want.now) (table Binds binds.now))) out.old) }
{
    let count = write_entries(binds, index, most, from, want, &mut out[FIRST..]);
    octets::put(out, &[Code::OK.0, count as u8]);
    FIRST + BIND * count
}

// Get Bind Entries by Index: from the start index on, as many as asked. Every bind has the octets that it looks for, which are none.
fn by_index(binds: &[u8], payload: &[u8], out: &mut [u8]) -> usize
    requires { (length payload.now ≡ index_length) × (longest ≤ header_length + length out.old) }
    ensures { (result ≡ length (ok.0 ∷ listing (entries_by Index payload.now (table Binds binds.now))))
        × (out.new ≡ over (ok.0 ∷ listing (entries_by Index payload.now (table Binds binds.now))) out.old) }
{
    let index = octets::word_at(payload, 0) as usize;
    let most = (payload[NUMBER] as usize).min(MOST);
    write_listing(binds, index, most, 0, &payload[..0], out)
}

// Get Bind Entries by a part: those whose part is the payload's, as a removal takes them.
fn by_part(binds: &[u8], part: BindPart, payload: &[u8], out: &mut [u8]) -> usize
    requires { (length payload.now ≡ part_length part) × (longest ≤ header_length + length out.old) }
    ensures { (result ≡ length (ok.0 ∷ listing (entries_by (Part part) payload.now (table Binds binds.now))))
        × (out.new ≡ over (ok.0 ∷ listing (entries_by (Part part) payload.now (table Binds binds.now))) out.old) }
{
    let from = bind_records::part_start(part);
    let want = payloads::wanted(part, payload);
    write_listing(binds, 0, MOST, from, &want[..payload.len()], out)
}

// The five Get Bind Entries commands, in a session.
pub fn get_entries(binds: &[u8], filter: Filter, payload: &[u8], out: &mut [u8]) -> usize
    requires { (length payload.now ≡ filter_length filter) × (longest ≤ header_length + length out.old) }
    ensures { (result ≡ length (ok.0 ∷ listing (entries_by filter payload.now (table Binds binds.now))))
        × (out.new ≡ over (ok.0 ∷ listing (entries_by filter payload.now (table Binds binds.now))) out.old) }
{
    match filter {
        Filter::Index => by_index(binds, payload, out),
        Filter::Part(part) => by_part(binds, part, payload, out),
    }
}
