// What the program `links` prints for its input, made over lent buffers (document 01, Rows to try), and why an Add Bind is answered 0x02 (document 02,
// request 6).
#![tactic(auto)]

ghost use Rattle.std.specs.Prelude.{◌≡◌, List, ℕ, ◌≤◌, length};
ghost use Rattle.rules.specs.Frame.{Lent};
ghost use Rattle.rules.specs.Calls.{telling};
ghost use Rattle.writing.specs.Writing.{Printed};
ghost use Rattle.links_text.specs.Printing.{all_tables, printed, reasoned};

use hub::Tables;
use words::{Fields, Outcome, Reason, Refusal, Told};

// The tables at full size.
const DEVICES: usize = layouts::MOST_DEVICES * layouts::DEVICE;

const BINDS: usize = layouts::MOST_BINDS * layouts::BIND;

const GROUPS: usize = layouts::MOST_GROUPS * layouts::GROUP;

const MEMBERS: usize = layouts::MOST_MEMBERS * layouts::MEMBER;

const SESSIONS: usize = layouts::MOST_SESSIONS * layouts::SESSION;

// Where each but the first begins in the input, and the message behind them.
const AT_BINDS: usize = DEVICES;

const AT_GROUPS: usize = AT_BINDS + BINDS;

const AT_MEMBERS: usize = AT_GROUPS + GROUPS;

const AT_MESSAGE: usize = AT_MEMBERS + MEMBERS;

// The list has room for every bind and every member.
const LIST: usize = 3 * (layouts::MOST_BINDS + layouts::MOST_MEMBERS);

// How long the text is, and the reason.
#[derive(Drop)]
pub struct Output {
    pub length: usize,
    pub reason: Option<Reason>,
}

// What a message came to, or why it was refused.
fn outcome_of(told: Result<Told, Refusal>) -> Outcome
    ensures { (L : Lent) (r l : List ℕ) → result ≡ (telling told L r l).outcome }
{
    Ok(told?.accepted)
}

// Why an Add Bind was answered 0x02.
fn reason_of(told: Result<Told, Refusal>) -> Option<Reason>
    ensures { (L : Lent) (r l : List ℕ) → result ≡ (telling told L r l).reason }
{
    told.ok()?.reason
}

// The text for a whole input: the tables are copied out of it, since a call may change them. No device has a read session.
fn answer(input: &[u8], text: &mut [u8]) -> Output
    requires { (all_tables ≤ length input.now) × (2048 ≤ length text.old) }
    ensures { Printed (printed input.now) text.old result.length text.new × (result.reason ≡ reasoned input.now) }
{
    let mut devices = [0u8; DEVICES];
    let mut binds = [0u8; BINDS];
    let mut groups = [0u8; GROUPS];
    let mut members = [0u8; MEMBERS];
    octets::put(&mut devices, &input[0..AT_BINDS]);
    octets::put(&mut binds, &input[AT_BINDS..AT_GROUPS]);
    octets::put(&mut groups, &input[AT_GROUPS..AT_MEMBERS]);
    octets::put(&mut members, &input[AT_MEMBERS..AT_MESSAGE]);
    let mut sessions = [records::FREE; SESSIONS];
    let mut reply = [0u8; Fields::LONGEST];
    let mut list = [0u8; LIST];
    let mut tables = Tables {
        devices: &devices,
        binds: &mut binds,
        groups: &mut groups,
        members: &mut members,
        sessions: &mut sessions,
    };
    let told = hub::message(&mut tables, &input[AT_MESSAGE..], &mut reply, &mut list);
    let length = report::write_answer(outcome_of(told), &reply, &list, text);
    Output {
        length,
        reason: reason_of(told),
    }
}

// Writes what `links` prints for this input over `text`.
pub fn print(input: &[u8], text: &mut [u8]) -> Output
    requires { 2048 ≤ length text.old }
    ensures { Printed (printed input.now) text.old result.length text.new × (result.reason ≡ reasoned input.now) }
{
    if input.len() < AT_MESSAGE {
        let length = report::write_short(text);
        return Output {
            length,
            reason: None,
        };
    }
    answer(input, text)
}
