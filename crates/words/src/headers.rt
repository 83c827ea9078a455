// The numbers of a message (document 01, The message): lengths, types, interfaces.
ghost use Rattle.std.specs.Prelude.{◌≡◌};
ghost use Rattle.words.specs.Names.{no_fields};

use crate::{DeviceAddress, Fields};

impl Fields {
    // The octets before the payload, where it begins as the paper counts, and the most octets that a message has.
    pub const HEADER: usize = 15;

    pub const PAYLOAD: u16 = 16;

    pub const LONGEST: usize = 500;

    // A flag that is set: a group's address, a server interface.
    pub const SET: u16 = 1;

    // Message types: command, command that asks a response, the response to either; and the last of all.
    pub const COMMAND: u8 = 0x01;

    pub const COMMAND_ASKING: u8 = 0x02;

    pub const COMMAND_RESPONSE: u8 = 0x03;

    pub const LAST_TYPE: u8 = 0x10;

    // Interface UIDs, and what a bind says for any.
    pub const BIND_MANAGEMENT: u16 = 0x0002;

    pub const GROUP_MANAGEMENT: u16 = 0x0003;

    pub const ANY_INTERFACE: u16 = 0x7FFF;

    // What reading a refused message gives: every field 0.
    pub const NONE: Fields = Fields {
        source: DeviceAddress(0),
        source_unit: 0,
        address_type: 0,
        destination: 0,
        destination_unit: 0,
        app_ref: 0,
        message_type: 0,
        interface_type: 0,
        uid: 0,
        member: 0,
        data_length: 0,
        payload: 0,
    };

    pub fn none() -> Self
        ensures { result ≡ no_fields }
    {
        Fields::NONE
    }
}
