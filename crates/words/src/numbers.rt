// The members of the two services (document 000, 6.2.5 and 6.3.5).
use crate::Command;

impl Command {
    // Members of Bind Management.
    pub const ADD_BIND: u8 = 0x01;

    pub const REMOVE_BIND: u8 = 0x02;

    pub const REMOVE_BY_SOURCE: u8 = 0x03;

    pub const REMOVE_BY_SOURCE_UNIT: u8 = 0x04;

    pub const REMOVE_BY_DESTINATION: u8 = 0x05;

    pub const REMOVE_BY_DESTINATION_UNIT: u8 = 0x06;

    pub const START_SESSION: u8 = 0x07;

    pub const END_SESSION: u8 = 0x08;

    pub const GET_BY_INDEX: u8 = 0x09;

    pub const GET_BY_SOURCE: u8 = 0x0A;

    pub const GET_BY_SOURCE_UNIT: u8 = 0x0B;

    pub const GET_BY_DESTINATION: u8 = 0x0C;

    pub const GET_BY_DESTINATION_UNIT: u8 = 0x0D;

    // Members of Group Management.
    pub const CREATE_GROUP: u8 = 0x01;

    pub const DELETE_GROUP: u8 = 0x02;

    pub const ADD_TO_GROUP: u8 = 0x03;

    pub const REMOVE_FROM_GROUP: u8 = 0x04;

    pub const GET_GROUP_INFO: u8 = 0x05;
}
