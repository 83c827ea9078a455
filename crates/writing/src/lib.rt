// Text written piece by piece over what a lent buffer holds: there is no heap for a `String`, and contracts say each octet.
#![tactic(auto)]

ghost use Rattle.std.specs.Prelude.{◌≡◌, ◌+◌, ◌*◌, ◌<◌, length};
ghost use mathlib.Core.List.{flat_map};
ghost use Rattle.writing.specs.Writing.{digit, hex_octet, decimal, field, HasRoom, Wrote};

// One digit, for decimal and hex alike.
#[tactic(auto, unfolding(crate::specs::Writing::digit))]
pub fn digit(n: u8) -> u8
    requires { n < 16 }
    ensures { result ≡ digit n }
{
    if n < 10 { b'0' + n } else { b'A' + (n - 10) }
}

// The two digits of an octet.
fn hex_octet(o: u8) -> [u8; 2]
    ensures { result ≡ hex_octet o }
{
    [digit(o / 16), digit(o % 16)]
}

// A lent buffer, and the place where the next piece goes.
#[derive(Drop)]
pub struct Text<'a> {
    octets: &'a mut [u8],
    at: usize,
}

impl<'a> Text<'a> {
    // A text over what the buffer holds.
    pub fn over(octets: &'a mut [u8]) -> Text<'a>
        ensures same_buffer { result.octets.ghost_name ≡ octets.entry.ghost_name }
        ensures as_it_was { result.octets.now ≡ octets.old }
        ensures begins { result.at ≡ 0 }
    {
        Text { octets, at: 0 }
    }

    // How long the text is by now.
    pub fn length(&self) -> usize
        ensures { result ≡ self.now.at }
    {
        self.at // the place behind the last piece
    }

    // Every piece of the text goes through here.
    pub fn write_run(&mut self, run: &[u8])
        requires { HasRoom (length run.now) self.old }
        ensures { Wrote run.now self.old self.new }
    {
        octets::write_at(self.octets, self.at, run);
        self.at += run.len();
    }

    // A number in decimal, without leading zeros.
    fn write_decimal(&mut self, n: u8)
        requires { HasRoom 3 self.old }
        ensures { Wrote (decimal n) self.old self.new }
    {
        let last = digit(n % 10);
        let tens = digit(n / 10 % 10);
        if n < 10 {
            self.write_run(&[last]);
        } else if n < 100 {
            self.write_run(&[tens, last]);
        } else {
            self.write_run(&[digit(n / 100), tens, last]);
        }
    }

    // A word of the first line and the number behind it.
    pub fn write_field(&mut self, word: &[u8], n: u8)
        requires { HasRoom (length word.now + 3) self.old }
        ensures { Wrote (field word.now n) self.old self.new }
    {
        self.write_run(word);
        self.write_decimal(n);
    }

    // The octets of a reply, two digits each.
    pub fn write_hex(&mut self, s: &[u8])
        requires { HasRoom (2 * length s.now) self.old }
        ensures { Wrote (flat_map hex_octet s.now) self.old self.new }
    {
        for octet in s {
            self.write_run(&hex_octet(*octet));
        }
    }
}
