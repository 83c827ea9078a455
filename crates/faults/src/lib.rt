// What is wrong with a bind by its fields (document 01, Commands and codes; document 02, requests 4 and 6). Add Bind tells it, and a sound table's binds
// have no such fault.
#![tactic(auto)]

ghost use Rattle.std.specs.Prelude.{◌≡◌};
ghost use Rattle.words.specs.Reasons.{fault_in};
ghost use Rattle.rules.specs.Types.{Devices, Groups};
ghost use Rattle.rules.specs.Frame.{table};
ghost use Rattle.rules.specs.Faults.{bind_fault};
ghost use Rattle.rules.specs.Sound.{bind_fits};
ghost use Rattle.faults.specs.Parts.{unit_fault, source_fault, destination_fault};

use words::{DeviceAddress, Reason};

// The first of the two that is not there: the device, or its unit. The unit is looked for first, since where it is there its device is.
fn unit_fault(
    devices: &[u8],
    device: DeviceAddress,
    unit: u8,
    no_device: Reason,
    no_unit: Reason,
) -> Result<(), Reason>
    ensures { fault_in result ≡ unit_fault (table Devices devices.now) device unit no_device no_unit }
{
    if existing::unit_exists(devices, device, unit) {
        return Ok(());
    }
    if existing::device_exists(devices, device) {
        return Err(no_unit);
    }
    Err(no_device)
}

// 2 and 3: a source is any device, or one that exists, with any unit or one that it has.
fn source_fault(bind: [u8; 8], devices: &[u8]) -> Result<(), Reason>
    ensures { fault_in result ≡ source_fault (table Devices devices.now) bind }
{
    if bind_records::from_any_device(bind) {
        return Ok(());
    }
    let source = bind_records::bind_source(bind);
    if !bind_records::from_any_unit(bind) {
        let unit = bind_records::bind_source_unit(bind);
        return unit_fault(
            devices,
            source,
            unit,
            Reason::NoSourceDevice,
            Reason::NoSourceUnit,
        );
    }
    if !existing::device_exists(devices, source) {
        return Err(Reason::NoSourceDevice);
    }
    Ok(())
}

// 5 to 8: a destination is a group that exists, or a unit that exists and is not the source unit itself.
fn destination_fault(bind: [u8; 8], devices: &[u8], groups: &[u8]) -> Result<(), Reason>
    ensures { fault_in result ≡ destination_fault (table Devices devices.now) (table Groups groups.now) bind }
{
    if bind_records::to_group(bind) {
        if !existing::group_exists(groups, bind_records::bound_group(bind)) {
            return Err(Reason::NoGroup);
        }
        return Ok(());
    }
    unit_fault(
        devices,
        bind_records::bound_device(bind),
        bind_records::bind_unit(bind),
        Reason::NoDestinationDevice,
        Reason::NoDestinationUnit,
    )?;
    if bind_records::bind_to(bind) == bind_records::bind_from(bind) {
        return Err(Reason::BoundToItself);
    }
    Ok(())
}

// 2 to 8: all that is asked of a bind but its length and its presence.
pub fn bind_fault(bind: [u8; 8], devices: &[u8], groups: &[u8]) -> Result<(), Reason>
    ensures { fault_in result ≡ bind_fault (table Devices devices.now) (table Groups groups.now) bind }
{
    source_fault(bind, devices)?;
    if bind_records::bind_unit(bind) == DeviceAddress::NO_UNIT {
        return Err(Reason::DestinationUnitFF);
    }
    destination_fault(bind, devices, groups)
}

// The field rules of Add Bind, and "a bind's octet 1 with top bit 0".
pub fn bind_fits(bind: [u8; 8], devices: &[u8], groups: &[u8]) -> bool
    ensures { result ≡ bind_fits (table Devices devices.now) (table Groups groups.now) bind }
{
    let address = bind_records::bind_source(bind);
    let top = octets::flag(address.0);
    (top == 0) & bind_fault(bind, devices, groups).is_ok()
}
