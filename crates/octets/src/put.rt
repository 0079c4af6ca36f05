// Writing fields into lent bytes. Each call says where the next field starts. A caller makes sure of
// the room first, so these calls have a `requires`; no call that users make is among them.
ghost use Rattle.std.specs.Prelude.{◌≡◌, ◌∷◌, [], ◌+◌, ◌≤◌, ◌<◌, length};
ghost use Rattle.octets.specs.Put.{Put, zeros};

// The bytes s at an offset. A call of `copy_from_slice` would become one of `memmove`; `memcpy` and `memset`
// are all that the archive asks of its user (docs/TRUST.md).
pub fn put_bytes(out: &mut [u8], at: usize, s: &[u8]) -> usize
    requires { at + length s.now ≤ length out.old }
    ensures { Put at s.now out.old result out.new }
{
    for i in 0..s.len() {
        out[at + i] = s[i];
    }
    at + s.len()
}

// So many zeros at an offset.
pub fn put_zeros(out: &mut [u8], at: usize, n: usize) -> usize
    requires { at + n ≤ length out.old }
    ensures { (result ≡ at + n) × Put at (zeros n) out.old result out.new }
{
    let end = at + n;
    out[at..end].fill(0);
    end
}

// One byte at an offset.
pub fn put_byte(out: &mut [u8], at: usize, x: u8) -> usize
    requires { at < length out.old }
    ensures { Put at (x ∷ []) out.old result out.new }
{
    out[at] = x;
    at + 1
}
