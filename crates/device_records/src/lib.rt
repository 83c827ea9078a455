// A device's record (document 02, request 2): address, rights, one octet that is 0, and its set of units. No other crate knows where a unit's bit stands.
#![tactic(auto)]

ghost use Rattle.std.specs.Prelude.{◌≡◌, ◌+◌, ◌<◌, ◌≤◌, length, drop};
ghost use Rattle.rules.specs.Layout.{units_length, in_set, among, low_bits, up_to, device_record};

use layouts::DEVICE;
use words::DeviceAddress;

// Where rights, the octet that is 0 and the units stand in a record.
pub const RIGHTS: usize = 2;

pub const ZERO: usize = 3;

pub const UNITS: usize = 4;

// Is the unit in the set that begins at `from`? "32 octets with one bit per unit, the lowest bit of the first octet for unit 0"
pub fn in_set(given: &[u8], from: usize, unit: u8) -> bool
    requires { from + units_length ≤ length given.now }
    ensures { result ≡ in_set unit (drop from given.now) }
{
    let at = from + unit as usize / 8;
    octets::bit(given[at], unit % 8) == 1
}

// How many of the eight units of octet i are at most `top`.
fn among(top: u8, i: usize) -> usize
    requires { i < units_length }
    ensures { (result ≡ among top i) × (result ≤ 8) }
{
    (top as usize + 1).clamp(i * 8, i * 8 + 8) - i * 8
}

// An octet with its n lowest bits set.
fn low_bits(n: usize) -> u8
    requires { n ≤ 8 }
    ensures { result ≡ low_bits n }
{
    ((1u16 << n) - 1) as u8
}

// The set of units 0 to `top`.
pub fn up_to(top: u8) -> [u8; 32]
    ensures { result ≡ up_to top }
{
    std::array::from_fn(|i| low_bits(among(top, i)))
}

// The record of a device.
pub fn device_record(address: DeviceAddress, rights: u8, units: &[u8; 32]) -> [u8; 36]
    ensures { result ≡ device_record address rights units.now }
{
    let mut record = [0u8; DEVICE];
    octets::write_at(&mut record, UNITS, units);
    record[0] = octets::high(address.0);
    record[1] = octets::low(address.0);
    record[RIGHTS] = rights;
    record
}
