// Who gets a message, by the index of the bind table (document 02, request 3). A bind that matches is of the sender's device or of any device: these stand in
// two runs of entries, whose ends are found by halving, and no other bind is taken.
#![tactic(auto)]

ghost use Rattle.std.specs.Prelude.{◌≡◌, suc};
ghost use Rattle.rules.specs.Types.{Binds, Members};
ghost use Rattle.rules.specs.Frame.{table};
ghost use Rattle.rules.specs.Recipients.{recipients};
ghost use Rattle.rules.specs.Units.{ordered};
ghost use Rattle.index_rules.specs.Index.{right_index};
ghost use Rattle.index_rules.specs.Walks.{device_rank, Listed};
ghost use Rattle.units.specs.Listing.{Listing, Taken, Enough};
ghost use Rattle.collecting.specs.Leaving.{bound_but};
ghost use Rattle.delivery.specs.Delivering.{Deliverable};
ghost use Rattle.nearby.specs.Running.{named, Standing, Naming, near_but, to_binds};

use collecting::Recipients;
use indexing::DEVICE_RANK;
use layouts::BIND;
use words::{Destination, DeviceAddress, Fields};

// Entries of an index, from one place up to another.
#[derive(Drop)]
struct Run {
    from: usize,
    to: usize,
}

// The ranks of a source device: the first of them, and the first past them, which is the next device's only where there is one.
fn first_rank(device: u16) -> u64
    ensures { result ≡ device_rank device }
{
    device as u64 * DEVICE_RANK
}

fn rank_past(device: u16) -> u64
    ensures { result ≡ device_rank (suc device) }
{
    device as u64 * DEVICE_RANK + DEVICE_RANK
}

// The entries of a source device.
fn run_of(binds: &[u8], index: &[u8], device: DeviceAddress) -> Run
    requires { Listed (table Binds binds.now) index.now }
    ensures { Standing (table Binds binds.now) index.now device.0 result.from result.to }
{
    let from = indexing::count_below(binds, index, first_rank(device.0));
    let to = indexing::count_from(binds, index, from, rank_past(device.0));
    Run { from, to }
}

// Whom the binds reach that the entries of a run name: a loop and no `fold`, as `Recipients::take_bound`.
fn take_run(
    so_far: Recipients,
    list: &mut [u8],
    binds: &[u8],
    index: &[u8],
    run: Run,
    members: &[u8],
    f: Fields,
    except: Option<u32>,
) -> Recipients
    requires { Naming (table Binds binds.now) index.now run.from run.to
        × Enough (bound_but except f (table Members members.now) (named (table Binds binds.now) index.now run.from run.to))
        so_far.count list.old }
    ensures { Taken (bound_but except f (table Members members.now)
        (named (table Binds binds.now) index.now run.from run.to))
        so_far.count list.old result.count list.new }
{
    let mut r = so_far;
    for position in &index[run.from..run.to] {
        let record = records::record_at(binds, BIND, *position as usize * BIND);
        r = r.take_bind(list, record, members, f, except);
    }
    r
}

// Whom the binds of the sender's device reach, and then those of any device.
fn take_near(
    list: &mut [u8],
    binds: &[u8],
    index: &[u8],
    members: &[u8],
    f: Fields,
    except: Option<u32>,
) -> Recipients
    requires { Listed (table Binds binds.now) index.now
        × Enough (near_but except f (table Members members.now) (table Binds binds.now) index.now) 0 list.old }
    ensures { Taken (near_but except f (table Members members.now) (table Binds binds.now) index.now)
        0 list.old result.count list.new }
{
    let own = run_of(binds, index, f.source);
    let any = run_of(binds, index, DeviceAddress::ANY);
    let r = take_run(
        Recipients::none(),
        list,
        binds,
        index,
        own,
        members,
        f,
        except,
    );
    take_run(r, list, binds, index, any, members, f, except)
}

// Whom the binds reach that match the message, in order. As in `delivery`, what is collected differs, and the rest is `units::order`.
fn near_in_order(
    list: &mut [u8],
    binds: &[u8],
    index: &[u8],
    members: &[u8],
    f: Fields,
    except: Option<u32>,
) -> usize
    requires { Deliverable binds.now members.now list.old × (index.now ≡ right_index (table Binds binds.now)) }
    ensures { Listing list.old list.new result
        (ordered (bound_but except f (table Members members.now) (table Binds binds.now))) }
{
    let r = take_near(list, binds, index, members, f, except);
    let n = r.count;
    units::order(list, n);
    n
}

// Is the message for whom the binds reach?
fn to_binds(to: Destination) -> bool
    ensures { result ≡ to_binds to }
{
    to == Destination::BindAddress
}

// Who gets the message: `delivery::deliver` with the index of the binds.
pub fn deliver(
    binds: &[u8],
    index: &[u8],
    members: &[u8],
    to: Destination,
    f: Fields,
    list: &mut [u8],
) -> usize
    requires { Deliverable binds.now members.now list.old × (index.now ≡ right_index (table Binds binds.now)) }
    ensures { Listing list.old list.new result
        (recipients (table Binds binds.now) (table Members members.now) to f) }
{
    if to_binds(to) {
        let without = Some(matching::sender(f));
        return near_in_order(list, binds, index, members, f, without);
    }
    delivery::deliver(binds, members, to, f, list)
}
