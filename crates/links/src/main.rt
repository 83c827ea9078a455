// `links` (document 01, Rows to try): reads the four tables at full size and then a message, and prints who gets it, or the reply. Why an Add Bind is
// answered 0x02 (document 02, request 6) it says on standard error.
#![tactic(auto)]

ghost use Rattle.std.specs.Prelude.{◌≤◌, length, IfOk};

use std::io;
use std::io::{Read, Write};
use std::rt::HostRuntime;

// Reads until the room is full or the input ends, and says how many octets were read.
fn read_full(rt: &HostRuntime, room: &mut [u8]) -> io::Result<usize>
    ensures { IfOk result (λ n. n ≤ length room.new) }
{
    let mut input = rt.stdin();
    // counted by hand, since as many octets come as come at a time
    let mut n = 0;
    for _ in 0..room.len() {
        let more = input.read(&mut room[n..])?;
        if more == 0 {
            break;
        }
        n += more;
    }
    Ok(n)
}

fn main(rt: HostRuntime) -> io::Result<()> {
    // 3,712 octets of tables, and at most 501 of a message.
    let mut input = [0u8; 4213];
    let n = read_full(&rt, &mut input)?;
    let mut text = [0u8; 2048];
    let answer = links_text::print(&input[..n], &mut text);
    let end = answer.length;
    rt.stdout().write_all(&text[..end])?;
    let mut words = [0u8; 128];
    let reason = answer.reason;
    let said = reason_text::write_reason(reason, &mut words);
    rt.stderr().write_all(&words[..said])
}
