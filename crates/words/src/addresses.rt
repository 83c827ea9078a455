// The special addresses, named once with their type (document 01, Tables).
ghost use Rattle.std.specs.Prelude.{◌≡◌};
ghost use Rattle.words.specs.Names.{concentrator, bind_address, any_device};

use crate::DeviceAddress;

impl DeviceAddress {
    // D'0000, the concentrator.
    pub const CONCENTRATOR: DeviceAddress = DeviceAddress(0x0000);

    // D'7FFF: with unit 0xFF and of individual type, the bind address.
    pub const BIND: DeviceAddress = DeviceAddress(0x7FFF);

    // "device and group addresses 0x0001 to 0x7FFE"
    pub const LOWEST: u16 = 0x0001;

    pub const HIGHEST: u16 = 0x7FFE;

    // The highest number that a unit may have, and the one that is no unit's.
    pub const HIGHEST_UNIT: u8 = 254;

    pub const NO_UNIT: u8 = 0xFF;

    // What a bind says for any, as its source device and as its source unit.
    pub const ANY: DeviceAddress = DeviceAddress(0x7FFF);

    pub const ANY_UNIT: u8 = 0xFF;

    pub fn concentrator() -> Self
        ensures { result ≡ concentrator }
    {
        DeviceAddress::CONCENTRATOR
    }

    pub fn bind() -> Self
        ensures { result ≡ bind_address }
    {
        DeviceAddress::BIND
    }

    pub fn any() -> Self
        ensures { result ≡ any_device }
    {
        DeviceAddress::ANY
    }
}
