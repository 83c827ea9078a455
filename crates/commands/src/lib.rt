// A command whole: rights, length and what its caller is told (document 02, request 6), then its own handler (document 01, Commands and codes), and
// sessions closed where it changed the binds (document 02, request 1). It gets the tables that commands use, whatever else is lent.
#![tactic(auto)]

ghost use Rattle.std.specs.Prelude.{◌≡◌, true, cond, [], ◌∷◌, ◌+◌, ◌≤◌, length};
ghost use Rattle.words.specs.Names.{header_length, longest};
ghost use Rattle.rules.specs.Types.{Devices, Binds};
ghost use Rattle.rules.specs.Octets.{over};
ghost use Rattle.rules.specs.Frame.{table, tables};
ghost use Rattle.lent.specs.Held.{held, viewed, SameTables};
ghost use Rattle.words.specs.Reasons.{fault_in};
ghost use Rattle.rules.specs.Exists.{has_rights};
ghost use Rattle.rules.specs.Commands.{row};
ghost use Rattle.acting.specs.Acting.{Workable, performed};
ghost use Rattle.commands.specs.Perform.{judging, reasoning, touches};

use lent::{Tables, View};
use words::{Code, Command, DeviceAddress, Reason};

// What performing a command gives: how many octets its reply has behind the header, and why an Add Bind was answered 0x02.
#[derive(Drop)]
pub struct Performed {
    pub length: usize,
    pub reason: Option<Reason>,
}

// What is wrong with the command's payload, where its caller is told: of Add Bind alone. Here and below every command is named, so that none can be forgotten.
fn fault_of(given: View<'_>, command: Command, payload: &[u8]) -> Result<(), Reason>
    ensures { fault_in result ≡ (row command).fault (tables (viewed given.entry)) payload.now }
{
    match command {
        Command::AddBind => bind_commands::add_fault(
            given.devices,
            given.binds,
            given.groups,
            payload,
        ),
        Command::RemoveBinds(_) => Ok(()),
        Command::StartSession => Ok(()),
        Command::EndSession => Ok(()),
        Command::GetEntries(_) => Ok(()),
        Command::CreateGroup => Ok(()),
        Command::DeleteGroup => Ok(()),
        Command::AddToGroup => Ok(()),
        Command::RemoveFromGroup => Ok(()),
        Command::GetGroupInfo => Ok(()),
    }
}

// Will the command change the binds, if it is granted?
#[tactic(auto, unfolding(crate::specs::Perform::touches))]
fn touches(binds: &[u8], command: Command, payload: &[u8]) -> bool
    requires { length payload.now ≡ (row command).length payload.now }
    ensures { result ≡ touches command (table Binds binds.now) payload.now }
{
    match command {
        Command::AddBind => true,
        Command::RemoveBinds(_) => true,
        Command::StartSession => false,
        Command::EndSession => false,
        Command::GetEntries(_) => false,
        Command::CreateGroup => false,
        Command::DeleteGroup => group_commands::is_bound(binds, payload),
        Command::AddToGroup => false,
        Command::RemoveFromGroup => false,
        Command::GetGroupInfo => false,
    }
}

// Has the sender the rights, where they are asked?
fn rights_fit(devices: &[u8], source: DeviceAddress, asked: bool) -> bool
    ensures { result ≡ cond asked (has_rights (table Devices devices.now) source) true }
{
    if !asked {
        return true;
    }
    existing::has_rights(devices, source)
}

// A command that is refused: its code is the whole reply.
fn refuse(out: &mut [u8], code: Code, reason: Option<Reason>) -> Performed
    requires { 1 ≤ length out.old }
    ensures { (result.length ≡ 1) × (result.reason ≡ reason) × (out.new ≡ over (code.0 ∷ []) out.old) }
{
    let length = changing::write_code(out, code);
    Performed { length, reason }
}

// Performs a command of the device `source` on sound tables. The payload of its reply goes over `out`, the part of the lent reply behind the header.
pub fn perform(
    tables: &mut Tables<'_>,
    source: DeviceAddress,
    command: Command,
    payload: &[u8],
    out: &mut [u8],
) -> Performed
    requires { Workable (held tables.old) × (longest ≤ header_length + length out.old) }
    ensures same { SameTables tables.new tables.old }
    ensures performed { performed result.length (held tables.new) out.new ≡ judging (held tables.old) source command payload.now out.old }
    ensures reason { result.reason ≡ reasoning (held tables.old) source command payload.now }
{
    let given = tables.view();
    let asked = decoding::demands(command, payload);
    if !rights_fit(given.devices, source, asked.rights) {
        return refuse(out, Code::not_authorized(), None);
    }
    let fault = fault_of(given, command, payload);
    if payload.len() != asked.length {
        return refuse(out, Code::invalid_argument(), fault.err());
    }
    if let Err(reason) = fault {
        return refuse(out, Code::invalid_argument(), Some(reason));
    }
    let touching = touches(given.binds, command, payload);
    let length = acting::act(tables, source, command, payload, out);
    sessions::close_all(tables.sessions, touching & (out[0] == Code::OK.0));
    Performed {
        length,
        reason: None,
    }
}
