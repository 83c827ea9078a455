// What follows once a message is decided (document 01, Outcomes): its command is served, or its recipients are listed.
#![tactic(auto)]

ghost use Rattle.std.specs.Prelude.{◌≡◌, [], Ok};
ghost use Rattle.rules.specs.Types.{Binds, Members};
ghost use Rattle.rules.specs.Frame.{nothing_lent, table};
ghost use Rattle.rules.specs.Recipients.{recipients};
ghost use Rattle.rules.specs.Calls.{answer, telling, handled, forwarded};
ghost use Rattle.delivery.specs.Delivering.{Deliverable};
ghost use Rattle.lent.specs.Held.{held, SameTables};
ghost use Rattle.following.specs.Following.{Servable, outcome_of};

use lent::Tables;
use words::{Accepted, Command, Destination, Fields, Told};

// Serves a command. Its handler gets the payload where it stands in the message, and the part of the lent reply behind the header.
pub fn serve(
    tables: &mut Tables<'_>,
    command: Command,
    f: Fields,
    payload: &[u8],
    reply: &mut [u8],
) -> Told
    requires { Servable (held tables.old) f reply.old }
    ensures same { SameTables tables.new tables.old }
    ensures serves { telling (Ok result) (held tables.new) reply.new [] ≡ handled (held tables.old) command f payload.now reply.old [] }
{
    let done = commands::perform(
        tables,
        f.source,
        command,
        payload,
        &mut reply[Fields::HEADER..Fields::LONGEST],
    );
    messages::write_header(reply, f, done.length);
    Told {
        accepted: Accepted::Done(Fields::HEADER + done.length),
        reason: done.reason,
    }
}

// What so many recipients come to.
#[tactic(auto, unfolding(crate::specs::Following::outcome_of))]
pub fn outcome_of(count: usize) -> Accepted
    ensures { Ok result ≡ outcome_of count }
{
    if count == 0 {
        return Accepted::Nobody;
    }
    Accepted::Forwarded(count)
}

// Lists the recipients. Where there is none, nothing is written.
pub fn forward(
    binds: &[u8],
    members: &[u8],
    to: Destination,
    f: Fields,
    list: &mut [u8],
) -> Accepted
    requires { Deliverable binds.now members.now list.old }
    ensures { answer (Ok result) nothing_lent [] list.new
        ≡ forwarded (recipients (table Binds binds.now) (table Members members.now) to f) nothing_lent [] list.old }
{
    outcome_of(delivery::deliver(binds, members, to, f, list))
}
