// What a message comes to (document 01, Outcomes): the checks of what is lent, and those of a message that can be read, each in the paper's order, before
// anything is written. `hub::message` asks between them whether it can be read.
#![tactic(auto)]

ghost use Rattle.std.specs.Prelude.{◌≡◌, Ok, Err};
ghost use Rattle.words.specs.Outcomes.{without_length};
ghost use Rattle.rules.specs.Types.{Devices, Groups, NoDestination, Forward, Fields, Refusal};
ghost use Rattle.rules.specs.Lists.{ask};
ghost use Rattle.rules.specs.Frame.{table};
ghost use Rattle.rules.specs.Calls.{roomy, to_many, asking, way_to, way_on};
ghost use Rattle.lent.specs.Held.{viewed};
ghost use Rattle.deciding.specs.Lending.{lending};

use lent::View;
use words::{Command, Destination, Fields, Refusal, Way};

// Outcome 17: is what is lent for the answer enough for any answer? Free records count, and lengths are divided down; a list holds one recipient even where
// the tables hold no record.
fn roomy(binds: &[u8], members: &[u8], reply: &[u8], list: &[u8]) -> bool
    ensures { result ≡ roomy binds.now members.now reply.now list.now }
{
    let records = binds.len() / layouts::BIND + members.len() / layouts::MEMBER;
    (Fields::LONGEST <= reply.len()) & (3 * records.max(1) <= list.len())
}

// What is asked of all that is lent, before the message is looked at: 17, 16, else 0.
#[tactic(auto, unfolding(crate::specs::Lending::lending, rules::specs::Lists::ask))]
pub fn lending(given: View<'_>, reply: &[u8], list: &[u8]) -> Result<(), Refusal>
    ensures { without_length result ≡ lending (viewed given.entry) reply.now list.now }
{
    if !roomy(given.binds, given.members, reply, list) {
        return Err(Refusal::NoRoom);
    }
    if !soundness::sound(given) {
        return Err(Refusal::Unsound);
    }
    Ok(())
}

// Outcome 15 is for a group and for D'7FFF:U'FF: a response goes to one unit only.
#[tactic(auto, unfolding(rules::specs::Calls::to_many))]
fn to_many(to: Destination) -> bool
    ensures { result ≡ to_many to }
{
    match to {
        Destination::Concentrator | Destination::Unit(_, _) => false,
        Destination::BindAddress | Destination::Group(_) => true,
    }
}

// Outcome 18: the concentrator serves the commands and nothing else.
#[tactic(auto, unfolding(rules::specs::Calls::asking))]
fn asking(decoded: Option<Command>) -> Result<Way, Refusal>
    ensures { result ≡ asking decoded }
{
    decoded.map(Way::Serve).ok_or(Refusal::NotServed)
}

// Outcome 14: a message goes on only to what exists.
#[tactic(auto, unfolding(rules::specs::Lists::ask))]
fn forwarding(exists: bool, to: Destination) -> Result<Way, Refusal>
    ensures { result ≡ ask exists (Err NoDestination) (Ok (Forward to)) }
{
    if exists {
        Ok(Way::Forward(to))
    } else {
        Err(Refusal::NoDestination)
    }
}

// "then 18 for D'0:U'0 or 14 for the rest"; D'7FFF:U'FF always exists.
#[tactic(auto, unfolding(rules::specs::Calls::way_to))]
fn way_to(devices: &[u8], groups: &[u8], to: Destination, f: Fields) -> Result<Way, Refusal>
    ensures { result ≡ way_to (table Devices devices.now) (table Groups groups.now) to f }
{
    match to {
        Destination::Concentrator => asking(decoding::command(f)),
        Destination::BindAddress => Ok(Way::Forward(to)),
        Destination::Unit(d, u) => forwarding(existing::unit_exists(devices, d, u), to),
        Destination::Group(g) => forwarding(existing::group_exists(groups, g), to),
    }
}

// The checks of a message that can be read: 13, 15, then where it goes. It writes nothing.
#[tactic(auto, using(messages::proofs::Reading::and_is), unfolding(rules::specs::Calls::way_on, rules::specs::Lists::ask))]
pub fn way_on(devices: &[u8], groups: &[u8], f: Fields) -> Result<Way, Refusal>
    ensures { result ≡ way_on (table Devices devices.now) (table Groups groups.now) f }
{
    if !existing::unit_exists(devices, f.source, f.source_unit) {
        return Err(Refusal::NoSource);
    }
    let to = messages::destination(f);
    if messages::is_response(f) & to_many(to) {
        return Err(Refusal::ResponseToMany);
    }
    way_to(devices, groups, to, f)
}
