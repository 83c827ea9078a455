// The two ways in which a command changes a table (document 01, Tables and Commands and codes): one record more, or all that match free; and the
// reply that is its code, or its code and a word.
#![tactic(auto)]

ghost use Rattle.std.specs.Prelude.{◌≡◌, not, [], ◌∷◌, ◌+◌, ◌%◌, ◌<◌, ◌≤◌, length};
ghost use Rattle.words.specs.Names.{ok, invalid_argument, not_enough_resources};
ghost use Rattle.rules.specs.Lists.{ask};
ghost use Rattle.rules.specs.Octets.{octets, over};
ghost use Rattle.rules.specs.Tables.{records, matches, store, wipe};
ghost use Rattle.rules.specs.Commands.{addition, removal, on_ok};
ghost use Rattle.changing.specs.Changing.{coded, coding};

use words::Code;

// The code of an addition: the record must not be there, and one record must be free.
#[tactic(auto, unfolding(rules::specs::Lists::ask))]
pub fn addition(there: bool, room: bool) -> Code
    ensures { result ≡ ask (not there) invalid_argument (ask room not_enough_resources ok) }
{
    if there {
        Code::invalid_argument()
    } else if !room {
        Code::not_enough_resources()
    } else {
        Code::ok()
    }
}

// Adds a record to the first free place, or says why not.
pub fn add(given: &mut [u8], size: usize, record: &[u8]) -> Code
    requires { (0 < size) × (length given.old % size ≡ 0) × (length «record».now ≡ size) }
    ensures { coded result given.new
        ≡ coding size (addition «record».now (records size given.old)) (store «record».now) given.old }
{
    let there = records::has(given, size, 0, record);
    let room = records::has_room(given, size);
    let code = addition(there, room);
    if code == Code::OK {
        records::store(given, size, record);
    }
    code
}

// Frees all records that have `want` from place `from` on, or says that none has.
pub fn remove(given: &mut [u8], size: usize, from: usize, want: &[u8]) -> Code
    requires { (0 < size) × (from + length want.now ≤ size) × (length given.old % size ≡ 0) }
    ensures { coded result given.new
        ≡ coding size (removal (matches from want.now) (records size given.old))
        (wipe (matches from want.now)) given.old }
{
    if !records::has(given, size, from, want) {
        return Code::invalid_argument();
    }
    records::free_matching(given, size, from, want);
    Code::ok()
}

// A reply that is its code alone.
pub fn write_code(out: &mut [u8], code: Code) -> usize
    requires { 1 ≤ length out.old }
    ensures { (result ≡ 1) × (out.new ≡ over (code.0 ∷ []) out.old) }
{
    octets::put(out, &[code.0]);
    1
}

// A reply that has a word behind 0x00; any other code is alone.
pub fn write_word(out: &mut [u8], code: Code, word: u16) -> usize
    requires { 3 ≤ length out.old }
    ensures { (result ≡ length (code.0 ∷ on_ok code (octets word) []))
        × (out.new ≡ over (code.0 ∷ on_ok code (octets word) []) out.old) }
{
    if code != Code::OK {
        return write_code(out, code);
    }
    octets::put(out, &[code.0, octets::high(word), octets::low(word)]);
    3
}
