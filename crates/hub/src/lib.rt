// The public calls of the bind and group part (documents 01 and 02), and here the one for a message: read once, decided by all that is lent; then its
// command is served, or its recipients are listed.
#![tactic(auto)]

ghost use Rattle.std.specs.Prelude.{◌≡◌};
ghost use Rattle.rules.specs.Calls.{telling, message};
ghost use Rattle.lent.specs.Held.{held, SameTables};

pub use carrying::carry_over;
pub use copying::copy;
pub use hosting::{admit, release};
pub use lent::Tables;
pub use messages::read;
use words::{Fields, Refusal, Told, Way};

// Handles a message: any octets, any contents and lengths of the lent slices. "Order for a message: 17, 16, 10, 11, 12, 13, 15, then .."
pub fn message(
    tables: &mut Tables<'_>,
    msg: &[u8],
    reply: &mut [u8],
    list: &mut [u8],
) -> Result<Told, Refusal>
    ensures same { SameTables tables.new tables.old }
    ensures message { telling result (held tables.new) reply.new list.new ≡ message (held tables.old) msg.now reply.old list.old }
{
    deciding::lending(tables.view(), reply, list)?;
    let f = messages::read(msg)?;
    let given = tables.view();
    let way = deciding::way_on(given.devices, given.groups, f)?;
    match way {
        Way::Serve(command) => Ok(following::serve(
            tables,
            command,
            f,
            &msg[Fields::HEADER..],
            reply,
        )),
        Way::Forward(to) => Ok(Told {
            accepted: following::forward(given.binds, given.members, to, f, list),
            reason: None,
        }),
    }
}
