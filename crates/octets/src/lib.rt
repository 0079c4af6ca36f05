// Fields of lent bytes, read here and written in `put`.
//
// Every reader is total: a byte past the end reads as 0, and a part has as many bytes as there are. So
// no caller has to test a length first, and no reader has a `requires`.
// The functions of `put` that write have one: their callers, the writers, make sure of the room.
#![tactic(auto)]

pub mod put;
pub mod theorems;

ghost use Rattle.std.specs.Prelude.{◌≡◌, drop, get_or};
ghost use Rattle.octets.specs.Read.{u16_at, u32_at, between, span_of, bytes_at, all_are, starts_with, same, ones_of, bit_at_or_above};

// Where an area of the bytes stands: from an offset up to another.
#[derive(Clone, Copy, PartialEq, Eq, Debug)]
pub struct Span {
    pub from: usize,
    pub to: usize,
}

// The byte at an offset.
pub fn byte_at(s: &[u8], at: usize) -> u8
    ensures { result ≡ get_or s.now at 0 }
{
    s.get(at).copied().unwrap_or(0)
}

// The bytes from a up to e.
pub fn part(s: &[u8], a: usize, e: usize) -> &[u8]
    ensures { result.now ≡ between a e s.now }
{
    rest(&s[..e.min(s.len())], a)
}

// The bytes of a span.
pub fn span_of(s: &[u8], span: Span) -> &[u8]
    ensures { result.now ≡ span_of span s.now }
{
    part(s, span.from, span.to)
}

// The bytes from a on.
pub fn rest(s: &[u8], a: usize) -> &[u8]
    ensures { result.now ≡ drop a s.now }
{
    &s[a.min(s.len())..]
}

// The N bytes at an offset, as an array.
pub fn bytes_at<const N: usize>(s: &[u8], at: usize) -> [u8; N]
    ensures { result ≡ bytes_at N s.now at }
{
    let r = rest(s, at);
    let mut bytes = [0; N];
    for j in 0..N {
        bytes[j] = byte_at(r, j);
    }
    bytes
}

// The little-endian 16-bit number at an offset.
pub fn u16_at(s: &[u8], at: usize) -> u32
    ensures { result ≡ u16_at s.now at }
{
    u32::from(u16::from_le_bytes(bytes_at(s, at)))
}

// The little-endian 32-bit number at an offset.
pub fn u32_at(s: &[u8], at: usize) -> u32
    ensures { result ≡ u32_at s.now at }
{
    u32::from_le_bytes(bytes_at(s, at))
}

// Whether the 64 bytes of a run are all x. It looks at every one of them, so that the compiler can
// take many at a time.
fn run_is(run: &[u8; 64], x: u8) -> bool
    ensures { result ≡ all_are x run.now }
{
    run.iter().fold(true, |all, b| all & (*b == x))
}

// Whether every byte is x: 64 at a time, then the rest one by one.
pub fn all_are(s: &[u8], x: u8) -> bool
    ensures { result ≡ all_are x s.now }
{
    let (runs, tail) = s.as_chunks::<64>();
    runs.iter().all(|run| run_is(run, x)) && tail.iter().all(|b| *b == x)
}

// Whether the bytes start with a magic.
pub fn starts_with(s: &[u8], magic: &[u8]) -> bool
    ensures { result ≡ starts_with magic.now s.now }
{
    s.starts_with(magic)
}

// Whether two digests are the same.
pub fn same_digest(a: [u8; 32], b: [u8; 32]) -> bool
    ensures { result ≡ same a b }
{
    a == b
}

// How many bits of a mask are set.
#[tactic(auto, unfolding(crate::specs::Read::ones_of))]
pub fn ones(mask: u8) -> u32
    ensures { result ≡ ones_of mask }
{
    mask.count_ones()
}

// Whether a bit of the mask is set at n or higher: the leading zeros tell the highest set bit.
pub fn bit_at_or_above(mask: u8, n: u32) -> bool
    ensures { result ≡ bit_at_or_above n mask }
{
    n < 8 - mask.leading_zeros()
}
