// The recipients are collected in the lent list, each once (document 01, Recipients): those that a record gives, then those of a table.
#![tactic(auto)]

ghost use Rattle.std.specs.Prelude.{◌≡◌, [], ◌∷◌, ◌+◌, ◌^◌, ◌<◌, ◌≤◌, length, take, drop};
ghost use Rattle.rules.specs.Types.{Binds, Members};
ghost use Rattle.rules.specs.Layout.{size};
ghost use Rattle.rules.specs.Frame.{table};
ghost use Rattle.rules.specs.Message.{sender};
ghost use Rattle.rules.specs.Recipients.{reached};
ghost use Rattle.units.specs.Listing.{Taken, Enough};
ghost use Rattle.collecting.specs.Leaving.{left_out, leaving, members_but, bound_but};

use layouts::{BIND, MEMBER};
use words::{Fields, GroupAddress};

// Is this unit left out? "without the sender": a collection leaves out the sender, by its number, where the paper says so.
fn left_out(except: Option<u32>, u: u32) -> bool
    ensures { result ≡ left_out except u }
{
    except == Some(u)
}

// The recipients so far stand in the lent list; their number is carried forward and handed back (document 01, Recipients), by value and beside the list, as
// document 01 asks.
#[derive(Drop)]
pub struct Recipients {
    pub count: usize,
}

impl Recipients {
    // Nobody yet.
    pub fn none() -> Self
        ensures { result.count ≡ 0 }
    {
        Recipients { count: 0 }
    }

    // One more recipient, unless it is there: "Each unit stands once".
    pub fn take(self, list: &mut [u8], u: u32) -> Self
        requires { (u < 2 ^ 24) × Enough (u ∷ []) self.count list.old }
        ensures { Taken (u ∷ []) self.count list.old result.count list.new }
    {
        let n = self.count;
        if units::listed(list, n, u) {
            return self;
        }
        units::append(list, n, u);
        Recipients { count: n + 1 }
    }

    // .. and unless it is left out.
    fn take_unless(self, list: &mut [u8], except: Option<u32>, u: u32) -> Self
        requires { (u < 2 ^ 24) × Enough (leaving except (u ∷ [])) self.count list.old }
        ensures { Taken (leaving except (u ∷ [])) self.count list.old result.count list.new }
    {
        if left_out(except, u) {
            return self;
        }
        self.take(list, u)
    }

    // The member in the record, where it is used and of this group.
    fn take_member(
        self,
        list: &mut [u8],
        record: &[u8],
        group: GroupAddress,
        except: Option<u32>,
    ) -> Self
        requires { (length «record».now ≡ size Members)
            × Enough (members_but except group («record».now ∷ [])) self.count list.old }
        ensures { Taken (members_but except group («record».now ∷ []))
            self.count list.old result.count list.new }
    {
        if !matching::is_member(record, group) {
            return self;
        }
        self.take_unless(list, except, matching::member_number(record))
    }

    // The members of a group (document 01, Recipients; Commands and codes, Get Group Info). This and `take_bound` are loops, and no `fold`: its closure would
    // write the lent list, of which nothing would be known behind it.
    pub fn take_members(
        self,
        list: &mut [u8],
        members: &[u8],
        group: GroupAddress,
        except: Option<u32>,
    ) -> Self
        requires { Enough (members_but except group (table Members members.now)) self.count list.old }
        ensures { Taken (members_but except group (table Members members.now))
            self.count list.old result.count list.new }
    {
        let mut r = self;
        for record in members.chunks_exact(MEMBER) {
            r = r.take_member(list, record, group, except);
        }
        r
    }

    // Whom a bind reaches: "the named unit or the group's members". The unit octet of a group bind plays no part.
    fn take_reached(
        self,
        list: &mut [u8],
        members: &[u8],
        bind: [u8; 8],
        except: Option<u32>,
    ) -> Self
        requires { Enough (leaving except (reached (table Members members.now) bind)) self.count list.old }
        ensures { Taken (leaving except (reached (table Members members.now) bind))
            self.count list.old result.count list.new }
    {
        if bind_records::to_group(bind) {
            return self.take_members(list, members, bind_records::bound_group(bind), except);
        }
        self.take_unless(list, except, bind_records::bind_to(bind))
    }

    // .. where the bind in the record is used and matches the message.
    pub fn take_bind(
        self,
        list: &mut [u8],
        record: &[u8],
        members: &[u8],
        f: Fields,
        except: Option<u32>,
    ) -> Self
        requires { (length «record».now ≡ size Binds)
            × Enough (bound_but except f (table Members members.now) («record».now ∷ [])) self.count list.old }
        ensures { Taken (bound_but except f (table Members members.now) («record».now ∷ []))
            self.count list.old result.count list.new }
    {
        if !matching::is_match(record, f) {
            return self;
        }
        self.take_reached(list, members, bind_records::bind_at(record, 0), except)
    }

    // Whom the binds reach that match the message.
    pub fn take_bound(
        self,
        list: &mut [u8],
        binds: &[u8],
        members: &[u8],
        f: Fields,
        except: Option<u32>,
    ) -> Self
        requires { Enough (bound_but except f (table Members members.now) (table Binds binds.now)) self.count list.old }
        ensures { Taken (bound_but except f (table Members members.now) (table Binds binds.now))
            self.count list.old result.count list.new }
    {
        let mut r = self;
        for record in binds.chunks_exact(BIND) {
            r = r.take_bind(list, record, members, f, except);
        }
        r
    }
}
