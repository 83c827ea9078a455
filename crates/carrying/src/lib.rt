// Old device tables carried over (document 02, request 2): records of 4 octets, in which a device has units 0 to its highest, become records with a set
// of units. The old record is known here alone.
#![tactic(auto)]

ghost use Rattle.std.specs.Prelude.{◌≡◌, ◌*◌, ◌%◌, length};
ghost use Rattle.words.specs.Outcomes.{without_length};
ghost use Rattle.rules.specs.Carry.{old_size, old_fits, old_sound, carried, carried_table, times, carry_answer, carry_outcome, carried_over};

use layouts::{ADDRESS, DEVICE, MOST_DEVICES};
use words::{DeviceAddress, Refusal};

// The octets of an old record, and where its rights and its highest unit stand.
const OLD: usize = 4;

const RIGHTS: usize = 2;

const HIGHEST: usize = 3;

// "nine times its length"
const TIMES: usize = 9;

// Address, rights 0 or 1, highest unit 0 to 254.
fn old_fits(record: &[u8]) -> bool
    requires { length «record».now ≡ old_size }
    ensures { result ≡ old_fits «record».now }
{
    let address = fitting::address_fits(octets::word_at(record, 0));
    address & (record[RIGHTS] <= 1) & (record[HIGHEST] <= DeviceAddress::HIGHEST_UNIT)
}

// Is the old table sound by itself?
fn old_sound(old: &[u8]) -> bool
    ensures { result ≡ old_sound old.now }
{
    if !soundness::whole_records(old, OLD, MOST_DEVICES) {
        return false;
    }
    let fit = soundness::all_used(old, OLD, old_fits);
    let once = soundness::distinct(old, OLD, ADDRESS);
    fit & once
}

// An old record as a new one; a free one stays free.
fn carried(record: &[u8]) -> [u8; 36]
    requires { length «record».now ≡ old_size }
    ensures { result ≡ carried «record».now }
{
    if records::is_free(record) {
        return [records::FREE; DEVICE];
    }
    let address = DeviceAddress(octets::word_at(record, 0));
    let units = device_records::up_to(record[HIGHEST]);
    device_records::device_record(address, record[RIGHTS], &units)
}

// Every record of the old table, one after the other.
fn carry(old: &[u8], new: &mut [u8])
    requires { (length old.now % old_size ≡ 0) × (length new.old ≡ times * length old.now) }
    ensures { new.new ≡ carried_table old.now }
{
    for (i, record) in old.chunks_exact(OLD).enumerate() {
        octets::write_at(new, i * DEVICE, &carried(record));
    }
}

// "16 for an unsound old table, then 17 where the new one isn't nine times its length": it looks, and writes nothing.
fn carry_outcome(old: &[u8], new: &[u8]) -> Result<(), Refusal>
    ensures { without_length result ≡ carry_outcome old.now new.now }
{
    if !old_sound(old) {
        return Err(Refusal::Unsound);
    }
    if new.len() != TIMES * old.len() {
        return Err(Refusal::NoRoom);
    }
    Ok(())
}

// Carries an old device table over into a new one: every octet of the new table is written, or none.
#[tactic(auto, using(crate::proofs::Settled::carry_refused, crate::proofs::Settled::carry_done, crate::proofs::Settled::passed))]
pub fn carry_over(old: &[u8], new: &mut [u8]) -> Result<(), Refusal>
    ensures { carry_answer (without_length result) new.new ≡ carried_over old.now new.old }
{
    carry_outcome(old, new)?;
    carry(old, new);
    Ok(())
}
