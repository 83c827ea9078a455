// What exists (document 01, Tables). A device's address and a group's are two types, and a lookup takes only its own.
#![tactic(auto)]

ghost use Rattle.std.specs.Prelude.{◌≡◌, ◌+◌, ◌≤◌, length, take, drop};
ghost use Rattle.rules.specs.Types.{Devices, Groups};
ghost use Rattle.rules.specs.Lists.{any};
ghost use Rattle.rules.specs.Tables.{records, used, addressed};
ghost use Rattle.rules.specs.Layout.{size};
ghost use Rattle.rules.specs.Frame.{table};
ghost use Rattle.rules.specs.Exists.{admitted, has_unit, unit_exists, device_exists, has_rights, group_exists};
ghost use Rattle.records.specs.Search.{passes};

use device_records::UNITS;
use layouts::{DEVICE, GROUP};
use words::{DeviceAddress, GroupAddress};

// Does a record of the table begin with this address?
fn has_address(octets: &[u8], size: usize, address: u16) -> bool
    requires { 2 ≤ size }
    ensures { result ≡ any (addressed address) (used (records size octets.now)) }
{
    records::has(octets, size, 0, &layouts::address_octets(address))
}

// Is the device in the table?
pub fn is_admitted(devices: &[u8], device: DeviceAddress) -> bool
    ensures { result ≡ admitted (table Devices devices.now) device }
{
    has_address(devices, DEVICE, device.0)
}

// Is the record at `at` this device's, with this unit?
fn unit_at(devices: &[u8], at: usize, device: DeviceAddress, unit: u8) -> bool
    requires { at + size Devices ≤ length devices.now }
    ensures { result ≡ passes (has_unit device unit) (take (size Devices) (drop at devices.now)) }
{
    let record = records::record_at(devices, DEVICE, at);
    let this = records::is_match(record, 0, &layouts::address_octets(device.0));
    this && device_records::in_set(devices, at + UNITS, unit)
}

// Does a record of the table have this device and unit?
fn has_unit(devices: &[u8], device: DeviceAddress, unit: u8) -> bool
    ensures { result ≡ any (has_unit device unit) (used (table Devices devices.now)) }
{
    (0..devices.len() / DEVICE).any(|i| unit_at(devices, i * DEVICE, device, unit))
}

// Does the unit exist? "D'0000 is the concentrator: never in the table, unit 0 only, rights 1."
pub fn unit_exists(devices: &[u8], device: DeviceAddress, unit: u8) -> bool
    ensures { result ≡ unit_exists (table Devices devices.now) device unit }
{
    if device == DeviceAddress::CONCENTRATOR {
        return unit == 0;
    }
    has_unit(devices, device, unit)
}

// Does the device exist? The concentrator does, and each that is admitted.
pub fn device_exists(devices: &[u8], device: DeviceAddress) -> bool
    ensures { result ≡ device_exists (table Devices devices.now) device }
{
    device == DeviceAddress::CONCENTRATOR || is_admitted(devices, device)
}

// May the device give commands?
pub fn has_rights(devices: &[u8], device: DeviceAddress) -> bool
    ensures { result ≡ has_rights (table Devices devices.now) device }
{
    let [high, low] = layouts::address_octets(device.0);
    device == DeviceAddress::CONCENTRATOR || records::has(devices, DEVICE, 0, &[high, low, 1])
}

// Is the group in the table?
pub fn group_exists(groups: &[u8], group: GroupAddress) -> bool
    ensures { result ≡ group_exists (table Groups groups.now) group }
{
    has_address(groups, GROUP, group.0)
}
