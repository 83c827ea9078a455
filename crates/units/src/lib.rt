// Units in a lent list (document 01, Outcomes and Recipients), 3 octets each: read, written, looked for, and put in order.
#![tactic(auto)]

mod rising;

ghost use Rattle.std.specs.Prelude.{◌≡◌, ◌+◌, ◌*◌, ◌^◌, ◌<◌, ◌≤◌, length};
ghost use Rattle.std.proofs.lemmas.List.Edits.{sets};
ghost use Rattle.rules.specs.Lists.{has};
ghost use Rattle.rules.specs.Units.{three_octets};
ghost use Rattle.units.specs.Listing.{units};

pub use rising::order;

// A unit's three octets.
fn three_octets(u: u32) -> [u8; 3]
    requires { u < 2 ^ 24 }
    ensures { result ≡ three_octets u }
{
    [(u / 65536) as u8, (u / 256 % 256) as u8, (u % 256) as u8]
}

// Writes a unit behind the first n.
pub fn append(list: &mut [u8], n: usize, u: u32)
    requires { (3 * n + 3 ≤ length list.old) × (u < 2 ^ 24) }
    ensures { list.new ≡ sets list.old (3 * n) (three_octets u) }
{
    octets::write_at(list, 3 * n, &three_octets(u));
}

// Is this unit one of the first n?
pub fn listed(list: &[u8], n: usize, u: u32) -> bool
    requires { 3 * n ≤ length list.now }
    ensures { result ≡ has u (units n list.now) }
{
    (0..n).any(|i| layouts::unit_at(list, 3 * i) == u)
}
