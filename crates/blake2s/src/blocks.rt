// Section 2.4 and 3.3 of RFC 7693: the blocks of a message as words, the loop over them, and the
// state as bytes.
//
// The loop takes a start state and a first block, so that a message may be hashed in slices. A
// block that lies in the lent bytes whole is mixed where it lies, the last one too. Only a block
// that starts before them or reaches past their end is copied.
ghost use Rattle.std.specs.Prelude.{◌≡◌, ℕ, ◌+◌, ◌-◌, ◌*◌, ◌^◌, ◌<◌, ◌≤◌, ◌++◌, length, drop};
ghost use Rattle.std.proofs.Math.Seq.{paste};
ghost use Rattle.blake2s.specs.Rfc7693.{F, word_at, four_at, block_at, block_count, absorbed, initial, serialised};
ghost use Rattle.blake2s.specs.Parts.{block_of, run_at, whole_blocks, zero_tailed};
ghost use Rattle.blake2s.specs.Words.{quad, block, state};

use crate::mixing::{Block, Quad, State, compress};

// The word at i, the least byte first.
fn word(s: &[u8], i: usize) -> u32
    requires { i + 3 < length s.now }
    ensures { result ≡ word_at s.now i }
{
    u32::from(s[i])
        + 256 * u32::from(s[i + 1])
        + 65536 * u32::from(s[i + 2])
        + 16777216 * u32::from(s[i + 3])
}

// Four words from i on.
fn four_words(s: &[u8], i: usize) -> Quad
    requires { i + 15 < length s.now }
    ensures { quad result ≡ four_at s.now i }
{
    Quad {
        a: word(s, i),
        b: word(s, i + 4),
        c: word(s, i + 8),
        d: word(s, i + 12),
    }
}

// The sixteen words of the 64 bytes at i.
fn block_at(s: &[u8], i: usize) -> Block
    requires { i + 63 < length s.now }
    ensures { block result ≡ block_at s.now i }
{
    let w0 = four_words(s, i);
    let w1 = four_words(s, i + 16);
    let w2 = four_words(s, i + 32);
    let w3 = four_words(s, i + 48);
    Block {
        m0: w0.a,
        m1: w0.b,
        m2: w0.c,
        m3: w0.d,
        m4: w1.a,
        m5: w1.b,
        m6: w1.c,
        m7: w1.d,
        m8: w2.a,
        m9: w2.b,
        m10: w2.c,
        m11: w2.d,
        m12: w3.a,
        m13: w3.b,
        m14: w3.c,
        m15: w3.d,
    }
}

// The state after the 64 bytes at i. Each word is read once, where it lies, and no array is made.
fn mix_at(s: &[u8], i: usize, h: State, t: u64, last: bool) -> State
    requires { i + 63 < length s.now }
    ensures { state result ≡ F (state h) (block_at s.now i) t last }
{
    compress(h, block_at(s, i), t, last)
}

// The bytes from i on: none past the end of s. `octets` has it too, and this crate stands on none.
fn rest(s: &[u8], i: usize) -> &[u8]
    ensures { result.now ≡ drop i s.now }
{
    &s[i.min(s.len())..]
}

// The block with the first n bytes of s copied over it at an offset. Never all 64 are.
fn copied(mut block: [u8; 64], at: usize, s: &[u8], n: usize) -> [u8; 64]
    requires { (n < 64) × (at + n ≤ 64) × (n ≤ length s.now) }
    ensures { (result ≡ paste block at s.now n) × (length block ≡ 64) }
{
    block[at..at + n].copy_from_slice(&s[..n]);
    block
}

// The 64 bytes at i, with zeros past the end of s, which is before theirs.
fn padded(s: &[u8], i: usize) -> [u8; 64]
    requires { length s.now < i + 64 }
    ensures { block_at result 0 ≡ block_at s.now i }
{
    let bytes = rest(s, i);
    copied([0; 64], 0, bytes, bytes.len().min(64))
}

// The first 64 bytes of a message of four bytes, those of s, and zeros.
pub fn after_word(first: [u8; 4], s: &[u8]) -> [u8; 64]
    ensures { (block_at result 0 ≡ block_at (first ++ zero_tailed s.now) 0) × (length first ≡ 4) }
{
    let word = copied([0; 64], 0, &first, 4);
    copied(word, 4, s, s.len().min(60))
}

// How many blocks a message of n bytes has.
fn block_count(n: usize) -> usize
    ensures { result ≡ block_count n }
{
    n.saturating_sub(1) / 64 + 1
}

// The state after count blocks that lie together in s from i on, from block k of a message of n
// bytes on. This is the one loop that mixes. It counts bytes, since a `for` over the blocks or over
// their numbers makes the digest slower by 2 percent and more.
fn absorb_run(h: State, s: &[u8], i: usize, count: usize, n: usize, k: usize) -> State
    requires { (i + 64 * count ≤ length s.now) × (k + count < 2 ^ 57 + 4) }
    ensures { state result ≡ absorbed (run_at s.now i k) n (state h) k count }
{
    let start = 64 * k;
    let end = 64 * count;
    let mut now = h;
    let mut o = 0;
    while o < end {
        let stop = start + o + 64;
        now = mix_at(s, i + o, now, stop.min(n) as u64, n <= stop);
        o += 64;
    }
    now
}

// How many blocks, one after another from the one at offset at and up to stop, lie whole in len
// lent bytes, which start at offset skip of the message. None if the first starts before them.
fn whole_blocks(len: usize, skip: usize, at: usize, stop: usize) -> usize
    requires { at ≤ stop }
    ensures { result ≡ whole_blocks len skip at stop }
{
    if at < skip {
        return 0;
    }
    (len.saturating_sub(at - skip) / 64).min((stop - at) / 64)
}

// A message of len bytes. The lent bytes stand at offset skip of it, and zeros behind them. A block
// that starts before the lent bytes is `first`.
#[derive(Drop)]
pub struct Message<'a> {
    pub first: [u8; 64],
    pub lent: &'a [u8],
    pub skip: usize,
    pub len: usize,
}

impl Message<'_> {
    // The 64 bytes of block k. A block that lies whole in the lent bytes may not be copied.
    fn block_copy(&self, k: usize) -> [u8; 64]
        requires { (k < 2 ^ 57 + 4) × (self.now.skip ≤ 64 * k → length self.now.lent.now < 64 * k - self.now.skip + 64) }
        ensures { block_at result 0 ≡ block_of self.now.first self.now.lent.now self.now.skip k }
    {
        if 64 * k < self.skip {
            self.first
        } else {
            padded(self.lent, 64 * k - self.skip)
        }
    }

    // The state after the blocks from `from` up to `end`, none of which lies whole in the lent
    // bytes. Each is copied.
    fn absorb_copied(&self, h: State, from: usize, end: usize) -> State
        requires { (from ≤ end) × (end < 2 ^ 57 + 4) × ((k : ℕ) → from ≤ k → k < end → self.now.skip ≤ 64 * k → length self.now.lent.now < 64 * k - self.now.skip + 64) }
        ensures { state result ≡ absorbed (block_of self.now.first self.now.lent.now self.now.skip) self.now.len (state h) from (end - from) }
    {
        let mut now = h;
        for k in from..end {
            now = absorb_run(now, &self.block_copy(k), 0, 1, self.len, k);
        }
        now
    }

    // The state after the blocks from `from` up to `end`, from the state h on. Those that lie whole
    // in the lent bytes are one run, and are mixed where they lie.
    #[inline(always)]
    fn absorb(&self, h: State, from: usize, end: usize) -> State
        requires { (from ≤ end) × (end < 2 ^ 57 + 4) }
        ensures { state result ≡ absorbed (block_of self.now.first self.now.lent.now self.now.skip) self.now.len (state h) from (end - from) }
    {
        let start = self.skip.div_ceil(64).clamp(from, end);
        let count = whole_blocks(self.lent.len(), self.skip, 64 * start, 64 * end);
        let before = self.absorb_copied(h, from, start);
        let within = if 0 < count {
            absorb_run(
                before,
                self.lent,
                64 * start - self.skip,
                count,
                self.len,
                start,
            )
        } else {
            before
        };
        self.absorb_copied(within, start + count, end)
    }

    // The digest: that of the state after all blocks. It is made for each caller by itself, which
    // leaves out what a message without a first block does not need.
    #[inline(always)]
    pub fn digest(&self) -> [u8; 32]
        requires { self.now.len < 2 ^ 63 + 128 }
        ensures { result ≡ serialised (absorbed (block_of self.now.first self.now.lent.now self.now.skip) self.now.len initial 0 (block_count self.now.len)) }
    {
        serialised(self.absorb(initial(), 0, block_count(self.len)))
    }
}

// The state before the first block.
fn initial() -> State
    ensures { state result ≡ initial }
{
    State {
        h0: 0x6a09e667 ^ 0x01010020,
        h1: 0xbb67ae85,
        h2: 0x3c6ef372,
        h3: 0xa54ff53a,
        h4: 0x510e527f,
        h5: 0x9b05688c,
        h6: 0x1f83d9ab,
        h7: 0x5be0cd19,
    }
}

// The bytes of the state, those of a word the least first.
fn serialised(h: State) -> [u8; 32]
    ensures { result ≡ serialised (state h) }
{
    let mut bytes = [0; 32];
    bytes[..4].copy_from_slice(&h.h0.to_le_bytes());
    bytes[4..8].copy_from_slice(&h.h1.to_le_bytes());
    bytes[8..12].copy_from_slice(&h.h2.to_le_bytes());
    bytes[12..16].copy_from_slice(&h.h3.to_le_bytes());
    bytes[16..20].copy_from_slice(&h.h4.to_le_bytes());
    bytes[20..24].copy_from_slice(&h.h5.to_le_bytes());
    bytes[24..28].copy_from_slice(&h.h6.to_le_bytes());
    bytes[28..].copy_from_slice(&h.h7.to_le_bytes());
    bytes
}
