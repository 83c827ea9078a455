// A reason in words that a fitter understands (document 02, request 6), written over a lent buffer as in `writing`.
#![tactic(auto)]

ghost use Rattle.std.specs.Prelude.{◌≡◌, ◌≤◌, length, Some};
ghost use Rattle.writing.specs.Writing.{HasRoom, Wrote, Printed};
ghost use Rattle.reason_text.specs.Saying.{sentence, reason_text};

use words::Reason;
use writing::Text;

// What is wrong.
fn sentence(reason: Reason) -> &'static [u8]
    ensures { result.now ≡ sentence reason }
{
    match reason {
        Reason::PayloadLength => b"the bind is not eight octets long",
        Reason::NoSourceDevice => b"the source device is not admitted",
        Reason::NoSourceUnit => b"the source unit is not one of that device's",
        Reason::DestinationUnitFF => b"the destination unit is 0xFF, which is no unit",
        Reason::NoDestinationDevice => b"the destination device is not admitted",
        Reason::NoDestinationUnit => b"the destination unit is not one of that device's",
        Reason::NoGroup => b"there is no such group",
        Reason::BoundToItself => b"the unit is bound to itself",
        Reason::AlreadyPresent => b"this bind is there already",
    }
}

// The line for a reason.
fn write_line(text: &mut Text<'_>, reason: Reason)
    requires { HasRoom 128 text.old }
    ensures { Wrote (reason_text (Some reason)) text.old text.new }
{
    text.write_field(b"reason ", reason.number());
    text.write_field(b", octet ", reason.octet());
    text.write_run(b": ");
    text.write_run(sentence(reason));
    text.write_run(b"\n");
}

// A line with the reason, its octet and what is wrong, written over `text`; nothing where nothing is wrong. Returns the line's length.
pub fn write_reason(reason: Option<Reason>, text: &mut [u8]) -> usize
    requires { 128 ≤ length text.old }
    ensures { Printed (reason_text reason) text.old result text.new }
{
    let Some(reason) = reason else {
        return 0;
    };
    let mut written = Text::over(text);
    write_line(&mut written, reason);
    written.length()
}
