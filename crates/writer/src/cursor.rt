// Fields written one behind the other into lent bytes.
//
// A caller makes sure of the room first, so these calls have a `requires`.
ghost use Rattle.std.specs.Prelude.{◌≡◌, ◌∷◌, [], ◌+◌, ◌≤◌, ◌<◌, length};
ghost use Rattle.octets.specs.Put.{zeros};
ghost use Rattle.writer.specs.Cursor.{Wrote};

use octets::put::{put_byte, put_bytes, put_zeros};

// The bytes, and where in them the next field goes.
#[derive(Drop)]
pub struct Cursor<'a> {
    pub out: &'a mut [u8],
    pub at: usize,
}

impl Cursor<'_> {
    // The bytes s.
    pub fn bytes(&mut self, s: &[u8])
        requires { self.old.at + length s.now ≤ length self.old.out.now }
        ensures { Wrote s.now self.old self.new }
    {
        self.at = put_bytes(self.out, self.at, s);
    }

    // So many zeros.
    pub fn zeros(&mut self, n: usize)
        requires { self.old.at + n ≤ length self.old.out.now }
        ensures wrote { Wrote (zeros n) self.old self.new }
        ensures place { self.new.at ≡ self.old.at + n }
    {
        self.at = put_zeros(self.out, self.at, n);
    }

    // One byte.
    pub fn byte(&mut self, x: u8)
        requires { self.old.at < length self.old.out.now }
        ensures { Wrote (x ∷ []) self.old self.new }
    {
        self.at = put_byte(self.out, self.at, x);
    }
}
