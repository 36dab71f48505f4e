// Appending to a lent run of bytes.
ghost use Rattle.std.specs.Prelude.{◌≡◌, [], ◌∷◌, ◌<◌, ◌^◌, T};
ghost use Rattle.laws.specs.Lists.{tabulate};
ghost use Rattle.codec.specs.Bytes.{Room, byte_of, pattern, in_width};

use codec::{signed, unsigned};
use itoa::{Buffer, Integer};

// A lent run of bytes, and the place up to which it is written. Not a `fmt::Write`: `write!` promises its bytes only where it answers `Ok`, and nothing says when; here the room is known.
#[derive(Drop)]
pub struct Writer<'a> {
    pub out: &'a mut [u8],
    pub at: usize,
}

impl<'a> Writer<'a> {
    ghost use Rattle.records.specs.Writing.{HasRoom, Puts};

    pub fn new(out: &'a mut [u8]) -> Writer<'a>
        ensures same_run { result.out.ghost_name ≡ out.entry.ghost_name }
        ensures bytes { result.out.now ≡ out.old }
        ensures at { result.at ≡ 0 }
    {
        Writer { out, at: 0 }
    }

    // A text, as it stands.
    pub fn text(&mut self, text: &[u8])
        requires { HasRoom text.now self.old }
        ensures { Puts text.now self.old self.new }
    {
        let at = self.at;
        let end = at + text.len();
        self.out[at..end].copy_from_slice(text);
        self.at += text.len();
    }

    pub fn byte(&mut self, b: u8)
        requires { HasRoom (b ∷ []) self.old }
        ensures { Puts (b ∷ []) self.old self.new }
    {
        let at = self.at;
        self.out[at] = b;
        self.at = at + 1;
    }

    // A number's bytes, low byte first.
    pub fn unsigned(&mut self, width: usize, x: usize)
        requires room { Room self.old.out.now self.old.at width }
        requires x_bound { x < 256 ^ width }
        ensures { Puts (tabulate width (byte_of x)) self.old self.new }
    {
        let at = self.at;
        let end = at + width;
        unsigned::put_number(&mut self.out[at..end], x);
        self.at = end;
    }

    // A number below 256, as a byte.
    pub fn small(&mut self, x: usize)
        requires x_bound { x < 256 }
        requires room { HasRoom (x ∷ []) self.old }
        ensures { Puts (x ∷ []) self.old self.new }
    {
        self.unsigned(1, x);
    }

    // Not one generic function with `unsigned`: which numbers have so many bytes, and what the bytes are, differs, and a trait of the two would be longer than the
    // bodies.
    pub fn signed(&mut self, width: usize, x: i64)
        requires room { Room self.old.out.now self.old.at width }
        requires fits_width { T (in_width width x) }
        ensures { Puts (tabulate width (byte_of (pattern width x))) self.old self.new }
    {
        let at = self.at;
        let end = at + width;
        signed::encode(&mut self.out[at..end], x);
        self.at = end;
    }

    // A number after another word, in decimal.
    pub fn number<I: Integer>(&mut self, x: I)
        requires { HasRoom (32 ∷ I.text x) self.old }
        ensures { Puts (32 ∷ I.text x) self.old self.new }
    {
        self.byte(b' ');
        self.text(Buffer::new().format(x).as_bytes());
    }
}
