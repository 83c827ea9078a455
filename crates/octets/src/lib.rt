// Octets and 16-bit words. A word's top bit is a flag and the rest a number (document 01, Tables); runs of octets are compared, tested, written and filled.
#![tactic(auto)]

ghost use Rattle.std.specs.Prelude.{◌≡◌, ◌+◌, ◌*◌, ◌/◌, ◌%◌, ◌<◌, ◌≤◌, eqb, length, take, drop, replicate};
ghost use Rattle.std.proofs.lemmas.List.Edits.{sets};
ghost use Rattle.rules.specs.Lists.{all};
ghost use Rattle.rules.specs.Octets.{bit, word, starts, over};

// Two octets, most significant first.
pub fn join(hi: u8, lo: u8) -> u16
    ensures { result ≡ hi * 256 + lo }
{
    u16::from_be_bytes([hi, lo])
}

pub fn high(w: u16) -> u8
    ensures { result ≡ w / 256 }
{
    (w >> 8) as u8
}

pub fn low(w: u16) -> u8
    ensures { result ≡ w % 256 }
{
    (w & 0xFF) as u8
}

pub fn flag(w: u16) -> u16
    ensures { result ≡ w / 32768 % 2 }
{
    w >> 15
}

pub fn number(w: u16) -> u16
    ensures { result ≡ w % 32768 }
{
    w & 0x7FFF
}

// A flag and a number as one word.
pub fn flagged(f: u16, n: u16) -> u16
    requires { (f < 2) × (n < 32768) }
    ensures { result ≡ f * 32768 + n }
{
    f << 15 | n
}

// The lower nine bits, a data length.
pub fn low_nine(w: u16) -> u16
    ensures { result ≡ w % 512 }
{
    w & 0x1FF
}

// The octet with its top bit 0.
pub fn low_seven(o: u8) -> u8
    ensures { result ≡ o % 128 }
{
    o & 0x7F
}

// Bit k of an octet.
pub fn bit(octet: u8, k: u8) -> u8
    requires { k < 8 }
    ensures { result ≡ bit k octet }
{
    octet >> k & 1
}

// The word at `at`.
pub fn word_at(s: &[u8], at: usize) -> u16
    requires { at + 1 < length s.now }
    ensures { result ≡ word at s.now }
{
    join(s[at], s[at + 1])
}

// Do the octets from `at` on begin with `want`?
pub fn same_at(s: &[u8], at: usize, want: &[u8]) -> bool
    requires { at + length want.now ≤ length s.now }
    ensures { result ≡ starts want.now (drop at s.now) }
{
    for j in 0..want.len() {
        if s[at + j] != want[j] {
            return false;
        }
    }
    true
}

// Are the n octets from `at` on all this value?
pub fn all_at(s: &[u8], at: usize, n: usize, value: u8) -> bool
    requires { at + n ≤ length s.now }
    ensures { result ≡ all (λ o. eqb o value) (take n (drop at s.now)) }
{
    s[at..at + n].iter().all(|octet| *octet == value)
}

// Writes a run of octets from `at` on.
pub fn write_at(s: &mut [u8], at: usize, run: &[u8])
    requires { at + length run.now ≤ length s.old }
    ensures { s.new ≡ sets s.old at run.now }
{
    for j in 0..run.len() {
        s[at + j] = run[j];
    }
}

// Writes a run of octets over the first ones; those past it stay.
pub fn put(s: &mut [u8], run: &[u8])
    requires { length run.now ≤ length s.old }
    ensures { s.new ≡ over run.now s.old }
{
    write_at(s, 0, run);
}

// Fills the n octets from `at` on with this value.
pub fn fill_at(s: &mut [u8], at: usize, n: usize, value: u8)
    requires { at + n ≤ length s.old }
    ensures { s.new ≡ sets s.old at (replicate n value) }
{
    s[at..at + n].fill(value);
}
