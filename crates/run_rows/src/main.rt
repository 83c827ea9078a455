// The rows of document 01 that are to be run (Rows to try): lengths 500 and 501, a full table and one removal, names of 13 and 14 octets.
#![tactic(auto)]

ghost use Rattle.std.specs.Prelude.{◌≡◌, ◌≤◌, length};

use hub::Tables;
use std::io;
use std::rt::HostRuntime;

// These octets, and zeros behind them.
fn padded(start: &[u8]) -> [u8; 501]
    requires { length start.now ≤ 501 }
    ensures { length result ≡ 501 }
{
    let mut msg = [0u8; 501];
    octets::put(&mut msg, start);
    msg
}

// From 3:01 to 4:02, with a payload of 485 or 486 octets.
fn long(low: u8) -> [u8; 501]
    ensures { length result ≡ 501 }
{
    let mut msg = padded(b"\x00\x03\x01\x00\x04\x02\x00\x00\x00\x01\x00\x00\x00\x01");
    msg[14] = low;
    msg
}

// Add Bind (member 1) or Remove Bind (member 2) of the bind from 3:01, server, this UID, to D'4:U'02.
fn bind(member: u8, uid: u8) -> [u8; 501]
    ensures { length result ≡ 501 }
{
    let mut msg = padded(
        b"\x00\x03\x01\x00\x00\x00\x00\x00\x07\x01\x80\x02\x01\x00\x08\x00\x03\x01\x82\x00\x00\x04\x02",
    );
    msg[12] = member;
    msg[19] = uid;
    msg
}

// Create Group with a name of this many letters, at most 14; the payload has one octet more.
fn name(payload: u8, letters: u8) -> [u8; 501]
    ensures { length result ≡ 501 }
{
    let mut msg = padded(
        b"\x00\x03\x01\x00\x00\x00\x00\x00\x07\x01\x80\x03\x01\x00\x00\x00AAAAAAAAAAAAAA",
    );
    msg[14] = payload;
    msg[15] = letters;
    msg
}

// Devices 3, with rights, and 4, each with the units 0 to 2; all other records are free.
fn two_devices() -> [u8; 2304]
    ensures { length result ≡ 2304 }
{
    let mut devices = [0xFFu8; 2304];
    octets::fill_at(&mut devices, 0, 72, 0x00);
    octets::put(&mut devices, b"\x00\x03\x01\x00\x07");
    octets::write_at(&mut devices, 36, b"\x00\x04\x00\x00\x07");
    devices
}

// Sends the first n octets over the tables: the outcome, and octet 16 of the reply, its code.
fn send(tables: &mut Tables<'_>, octets: &[u8; 501], n: usize) -> (u8, u8)
    requires { n ≤ 501 }
{
    let mut reply = [0u8; 500];
    let mut list = [0u8; 576];
    let told = hub::message(tables, &octets[..n], &mut reply, &mut list);
    (words::number_of(told.map(|t| t.accepted)), reply[15])
}

// A line: what was tried, the outcome, the code.
fn try_row(
    rt: &HostRuntime,
    tables: &mut Tables<'_>,
    tried: &str,
    octets: &[u8; 501],
    n: usize,
) -> io::Result<()>
    requires { n ≤ 501 }
{
    let (outcome, code) = send(tables, octets, n);
    println!(rt; "{tried}: outcome {outcome} code {code}")
}

fn main(rt: HostRuntime) -> io::Result<()> {
    let devices = two_devices();
    let mut binds = [0xFFu8; 512];
    let mut groups = [0xFFu8; 256];
    let mut members = [0xFFu8; 640];
    let mut sessions = [0xFFu8; 16];
    let mut tables = Tables {
        devices: &devices,
        binds: &mut binds,
        groups: &mut groups,
        members: &mut members,
        sessions: &mut sessions,
    };
    try_row(&rt, &mut tables, "500 octets", &long(0xE5), 500)?;
    try_row(&rt, &mut tables, "501 octets", &long(0xE6), 501)?;
    // sixty-four binds fill the table
    for uid in 0..64u8 {
        send(&mut tables, &bind(1, uid), 23);
    }
    try_row(&rt, &mut tables, "the 65th bind", &bind(1, 64), 23)?;
    try_row(&rt, &mut tables, "one removal", &bind(2, 9), 23)?;
    try_row(&rt, &mut tables, "the 65th bind again", &bind(1, 64), 23)?;
    try_row(&rt, &mut tables, "a name of 13", &name(14, 13), 29)?;
    try_row(&rt, &mut tables, "a name of 14", &name(15, 14), 30)
}
