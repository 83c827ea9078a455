// A copy of a message for one recipient (document 01, Outcomes, 19): the message, with the recipient as its destination.
#![tactic(auto)]

ghost use Rattle.std.specs.Prelude.{◌≡◌, [], ◌∷◌, ◌++◌, ◌≤◌, length};
ghost use Rattle.words.specs.Names.{header_length};
ghost use Rattle.words.specs.Outcomes.{with_length};
ghost use Rattle.rules.specs.Octets.{octets, over};
ghost use Rattle.rules.specs.Copy.{copied, copy_fits, copy_answer, copy};

use words::{DeviceAddress, Refusal};

// Outcome 19: the room, the device and the unit that a copy needs.
#[tactic(auto, using(messages::proofs::Reading::and_is), unfolding(rules::specs::Copy::copy_fits))]
fn copy_fits(message: &[u8], room: &[u8], device: DeviceAddress, unit: u8) -> bool
    ensures { result ≡ copy_fits message.now room.now device unit }
{
    (message.len() <= room.len())
        & (device.0 <= DeviceAddress::HIGHEST)
        & (unit != DeviceAddress::NO_UNIT)
}

// Octets 4 to 6 of a copy: type 0, device, unit.
#[tactic(auto, unfolding(rules::specs::Octets::octets))]
fn destination_octets(device: DeviceAddress, unit: u8) -> [u8; 3]
    ensures { result ≡ octets device.0 ++ unit ∷ [] }
{
    [octets::high(device.0), octets::low(device.0), unit]
}

// Writes the copy: the message, and then its octets 4 to 6 anew.
fn write_copy(message: &[u8], room: &mut [u8], device: DeviceAddress, unit: u8)
    requires { (header_length ≤ length message.now) × (length message.now ≤ length room.old) }
    ensures { room.new ≡ over (copied message.now device unit) room.old }
{
    let to = destination_octets(device, unit);
    octets::put(room, message);
    octets::write_at(room, 3, &to);
}

// Copies a message to one unit of a device (document 01, Recipients). Octets of the room past the copy stay.
pub fn copy(
    message: &[u8],
    room: &mut [u8],
    device: DeviceAddress,
    unit: u8,
) -> Result<usize, Refusal>
    ensures { copy_answer (with_length result) room.new ≡ copy message.now room.old device unit }
{
    messages::read(message)?;
    if !copy_fits(message, room, device, unit) {
        return Err(Refusal::NoCopy);
    }
    write_copy(message, room, device, unit);
    Ok(message.len())
}
