// The text that `links` prints (document 01, Rows to try), written over a lent buffer as in `writing`.
#![tactic(auto)]

ghost use Rattle.std.specs.Prelude.{◌≡◌, ◌+◌, ◌*◌, ◌<◌, ◌≤◌, length};
ghost use Rattle.writing.specs.Writing.{digit, HasRoom, Wrote, Printed};
ghost use Rattle.report.specs.Text.{recipient_line, recipient_lines, hex_line, first_line, count_of, answer_text, short_text, Room};

use words::{Accepted, Outcome};
use writing::Text;

// A recipient's line: device, colon, unit.
fn recipient_line(high: u8, low: u8, unit: u8) -> [u8; 8]
    ensures { result ≡ recipient_line high low unit }
{
    [
        writing::digit(high / 16),
        writing::digit(high % 16),
        writing::digit(low / 16),
        writing::digit(low % 16),
        b':',
        writing::digit(unit / 16),
        writing::digit(unit % 16),
        b'\n',
    ]
}

// The line that every answer has: `outcome N count C`.
fn write_first_line(text: &mut Text<'_>, number: u8, count: u8)
    requires { HasRoom 22 text.old }
    ensures { Wrote (first_line number count) text.old text.new }
{
    text.write_field(b"outcome ", number);
    text.write_field(b" count ", count);
    text.write_run(b"\n");
}

// The first n recipients of the list, a line each.
fn write_recipients(text: &mut Text<'_>, list: &[u8], n: usize)
    requires { HasRoom (8 * n) text.old × (3 * n ≤ length list.now) }
    ensures { Wrote (recipient_lines n list.now) text.old text.new }
{
    for recipient in list[..3 * n].chunks_exact(3) {
        text.write_run(&recipient_line(recipient[0], recipient[1], recipient[2]));
    }
}

// The reply, on one line.
fn write_reply(text: &mut Text<'_>, reply: &[u8])
    requires { HasRoom (2 * length reply.now + 1) text.old }
    ensures { Wrote (hex_line reply.now) text.old text.new }
{
    text.write_hex(reply);
    text.write_run(b"\n");
}

// The recipient count that is printed: of outcome 1 alone.
#[tactic(auto, unfolding(crate::specs::Text::value_if))]
fn count_of(outcome: Outcome) -> usize
    ensures { result ≡ count_of outcome }
{
    match outcome {
        Ok(Accepted::Forwarded(n)) => n,
        _ => 0,
    }
}

// The whole text for an answer, from the buffer's first place on.
fn write_text(text: &mut Text<'_>, outcome: Outcome, reply: &[u8], list: &[u8])
    requires lengths { Room outcome reply.now list.now text.old.octets.now }
    requires begins { text.old.at ≡ 0 }
    ensures { Wrote (answer_text outcome reply.now list.now) text.old text.new }
{
    write_first_line(text, words::number_of(outcome), count_of(outcome) as u8);
    match outcome {
        Ok(Accepted::Done(n)) => write_reply(text, &reply[..n]),
        Ok(Accepted::Forwarded(n)) => write_recipients(text, list, n),
        // any other has its first line alone
        Ok(Accepted::Nobody) => {}
        Err(_) => {}
    }
}

// What `links` prints for an answer. Returns the text's length.
pub fn write_answer(outcome: Outcome, reply: &[u8], list: &[u8], text: &mut [u8]) -> usize
    requires { Room outcome reply.now list.now text.old }
    ensures { Printed (answer_text outcome reply.now list.now) text.old result text.new }
{
    let mut written = Text::over(text);
    write_text(&mut written, outcome, reply, list);
    written.length()
}

// What `links` prints for input that is too short. Returns the text's length.
pub fn write_short(text: &mut [u8]) -> usize
    requires { 12 ≤ length text.old }
    ensures { Printed short_text text.old result text.new }
{
    let mut written = Text::over(text);
    written.write_run(b"short input\n");
    written.length()
}
