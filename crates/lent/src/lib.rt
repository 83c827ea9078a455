// What is lent (document 01, Outcomes): the five tables as one value, to be changed or to be looked at.
#![tactic(auto)]

ghost use Rattle.std.specs.Prelude.{◌≡◌};
ghost use Rattle.lent.specs.Held.{held, viewed};

// The tables, to be changed by a message: the devices are looked at, and no message changes them.
#[derive(Drop)]
pub struct Tables<'a> {
    pub devices: &'a [u8],
    pub binds: &'a mut [u8],
    pub groups: &'a mut [u8],
    pub members: &'a mut [u8],
    pub sessions: &'a mut [u8],
}

// The tables, to be looked at.
#[derive(Clone, Copy)]
pub struct View<'a> {
    pub devices: &'a [u8],
    pub binds: &'a [u8],
    pub groups: &'a [u8],
    pub members: &'a [u8],
    pub sessions: &'a [u8],
}

impl<'a> Tables<'a> {
    // What they hold.
    pub fn view(&self) -> View<'_>
        ensures { viewed result ≡ held self.now }
    {
        View {
            devices: self.devices,
            binds: self.binds,
            groups: self.groups,
            members: self.members,
            sessions: self.sessions,
        }
    }
}
