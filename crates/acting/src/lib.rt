// A command's own part (document 01, Commands and codes; document 02, request 1): its handler, behind the checks that all commands share.
#![tactic(auto)]

ghost use Rattle.std.specs.Prelude.{◌≡◌, ◌+◌, ◌≤◌, length};
ghost use Rattle.words.specs.Names.{header_length, longest};
ghost use Rattle.lent.specs.Held.{held, SameTables};
ghost use Rattle.rules.specs.Commands.{row};
ghost use Rattle.acting.specs.Acting.{Workable, performed, acting};

use lent::Tables;
use words::{Command, DeviceAddress};

// The command's own handler. The code that it gives is the payload of the reply, unless more is named. Handlers are lent different tables, so they are arms
// and no functions of one type.
pub fn act(
    tables: &mut Tables<'_>,
    source: DeviceAddress,
    command: Command,
    payload: &[u8],
    out: &mut [u8],
) -> usize
    requires { Workable (held tables.old)
        × (length payload.now ≡ (row command).length payload.now) × (longest ≤ header_length + length out.old) }
    ensures same { SameTables tables.new tables.old }
    ensures acts { performed result (held tables.new) out.new ≡ acting (held tables.old) source command payload.now out.old }
{
    let devices = tables.devices;
    let binds = &mut *tables.binds;
    let groups = &mut *tables.groups;
    let members = &mut *tables.members;
    let sessions = &mut *tables.sessions;
    match command {
        Command::AddBind => {
            let code = bind_commands::add_bind(binds, payload);
            changing::write_code(out, code)
        }
        Command::RemoveBinds(part) => {
            let code = bind_commands::remove_binds(binds, part, payload);
            changing::write_code(out, code)
        }
        Command::StartSession => sessions::start(binds, sessions, source, out),
        Command::EndSession => {
            let code = sessions::end(sessions, source);
            changing::write_code(out, code)
        }
        Command::GetEntries(filter) => sessions::read(
            binds, sessions, source, filter, payload, out,
        ),
        Command::CreateGroup => creating::create(groups, payload, out),
        Command::DeleteGroup => {
            let code = group_commands::delete_group(binds, groups, members, payload);
            changing::write_code(out, code)
        }
        Command::AddToGroup => {
            let code = group_commands::add_to_group(devices, groups, members, payload);
            changing::write_code(out, code)
        }
        Command::RemoveFromGroup => {
            let code = group_commands::remove_from_group(members, payload);
            changing::write_code(out, code)
        }
        Command::GetGroupInfo => group_info::get_group_info(groups, members, payload, out),
    }
}
