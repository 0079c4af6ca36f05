// Sections 5.1.1, 5.2.1 and 6.2.2 of FIPS 180-4: the blocks of a padded message as words, the loop
// over them, and the hash value as bytes.
//
// A block that lies in the lent bytes whole is mixed where it lies. The blocks after it, with the
// last bytes, zeros and padding, are made one at a time.
ghost use Rattle.std.specs.Prelude.{◌≡◌, ◌+◌, ◌*◌, ◌/◌, ◌%◌, ◌^◌, ◌<◌, ◌≤◌, [], ◌∷◌, ◌++◌, length, take, slice_set};
ghost use Rattle.octets.specs.Read.{bytes_at};
ghost use Rattle.sha256.specs.Fips180.{word_of, length_bytes, padded, words_of, block_at, absorbed, serialised, sha256_of};
ghost use Rattle.sha256.specs.Words.{state, quad, block, zero_tailed, marker, block_count};

use crate::mixing::{Block, Quad, State, compress};

// The word at i, the most significant byte first: BLAKE2s has the least first, and the crates of the two
// standards share no word of them.
#[tactic(auto, using(crate::proofs::Bytes::word_at))]
fn word(s: &[u8], i: usize) -> u32
    requires { i + 3 < length s.now }
    ensures { result ≡ word_of (bytes_at 4 s.now i) }
{
    u32::from_be_bytes([s[i], s[i + 1], s[i + 2], s[i + 3]])
}

// Four words from i on.
#[tactic(auto, using(crate::proofs::Bytes::four_words_at))]
fn four_words(s: &[u8], i: usize) -> Quad
    requires { i + 15 < length s.now }
    ensures { quad result ≡ words_of 4 (bytes_at 16 s.now i) }
{
    Quad {
        a: word(s, i),
        b: word(s, i + 4),
        c: word(s, i + 8),
        d: word(s, i + 12),
    }
}

// The sixteen words of the 64 bytes at i. Each is read once, where it lies.
#[tactic(auto, using(crate::proofs::Bytes::four_fours_at), unfolding(crate::specs::Fips180::block_at))]
fn block_at(s: &[u8], i: usize) -> Block
    requires { i + 63 < length s.now }
    ensures { block result ≡ block_at s.now i }
{
    Block {
        q0: four_words(s, i),
        q1: four_words(s, i + 16),
        q2: four_words(s, i + 32),
        q3: four_words(s, i + 48),
    }
}

// The hash value after the first count blocks of s, which lie in it whole. This is the one loop that
// mixes lent bytes.
#[tactic(auto, using(crate::proofs::Padding::absorbed_all))]
fn absorb_whole(h: State, s: &[u8], count: usize) -> State
    requires { 64 * count ≤ length s.now }
    ensures { state result ≡ absorbed (λ k. block_at s.now (64 * k)) (state h) 0 count }
{
    let mut now = h;
    for k in 0..count {
        now = compress(now, block_at(s, 64 * k));
    }
    now
}

// The bytes of s from i on, fewer than 64, and zeros.
#[tactic(auto, using(crate::proofs::Bytes::copied, crate::proofs::Bytes::none_left))]
fn last_bytes(s: &[u8], i: usize) -> [u8; 64]
    requires { length s.now < i + 64 }
    ensures { result ≡ bytes_at 64 s.now i }
{
    let mut bytes = [0; 64];
    if i < s.len() {
        let rest = &s[i..];
        bytes[..rest.len()].copy_from_slice(rest);
    }
    bytes
}

// The bytes with 0x80 at an offset, if that is one of theirs.
fn marked(mut block: [u8; 64], at: usize) -> [u8; 64]
    ensures { result ≡ slice_set block at marker }
{
    if at < 64 {
        block[at] = 0x80;
    }
    block
}

// The bytes with the length in bits of a message of n bytes as the last eight.
#[tactic(auto, using(crate::proofs::Bytes::ended, crate::proofs::Bytes::length_told))]
fn with_length(mut block: [u8; 64], n: usize) -> [u8; 64]
    ensures { result ≡ take 56 block ++ length_bytes n }
{
    let bits = (n as u64).wrapping_mul(8);
    block[56..].copy_from_slice(&bits.to_be_bytes());
    block
}

// The hash value before the first block.
const INITIAL: State = State {
    a: 0x6a09e667,
    b: 0xbb67ae85,
    c: 0x3c6ef372,
    d: 0xa54ff53a,
    e: 0x510e527f,
    f: 0x9b05688c,
    g: 0x1f83d9ab,
    h: 0x5be0cd19,
};

// The digest: the bytes of the hash value.
#[tactic(auto, using(crate::proofs::Bytes::spelt_none))]
fn serialised(h: State) -> [u8; 32]
    ensures { result ≡ serialised (state h) }
{
    let words = [h.a, h.b, h.c, h.d, h.e, h.f, h.g, h.h];
    let mut digest = [0; 32];
    for i in 0..8 {
        digest[4 * i..4 * i + 4].copy_from_slice(&words[i].to_be_bytes());
    }
    digest
}

// A message: the lent bytes, and zeros behind them up to its length.
#[derive(Drop)]
pub struct Message<'a> {
    pub lent: &'a [u8],
    pub len: usize,
    ghost has_room: { (length lent.now ≤ len) × (len < 2 ^ 63 + 2 ^ 32) },
}

impl Message<'_> {
    // How many blocks the message has when it is padded.
    fn block_count(&self) -> usize
        ensures { result ≡ block_count self.now.len }
    {
        (self.len + 8) / 64 + 1
    }

    // Block k of the message and the byte 0x80 behind it. It does not lie in the lent bytes whole.
    #[tactic(auto, using(crate::proofs::Padding::tail_past, crate::proofs::Padding::tail_marked))]
    fn tail_bytes(&self, k: usize) -> [u8; 64]
        requires { (length self.now.lent.now < 64 * k + 64) × (k < block_count self.now.len) }
        ensures { result ≡ bytes_at 64 (zero_tailed self.now.len self.now.lent.now ++ (marker ∷ [])) (64 * k) }
    {
        let i = 64 * k;
        let bytes = last_bytes(self.lent, i);
        if self.len < i {
            return bytes;
        }
        marked(bytes, self.len - i)
    }

    // Block k of the padded message. It does not lie in the lent bytes whole.
    #[tactic(auto, using(crate::proofs::Padding::made_block, crate::proofs::Padding::tail_earlier, crate::proofs::Padding::tail_last))]
    fn tail_block(&self, k: usize) -> Block
        requires { (length self.now.lent.now < 64 * k + 64) × (k < block_count self.now.len) }
        ensures { block result ≡ block_at (padded (zero_tailed self.now.len self.now.lent.now)) (64 * k) }
    {
        let mut bytes = self.tail_bytes(k);
        if k + 1 == self.block_count() {
            bytes = with_length(bytes, self.len);
        }
        block_at(&bytes, 0)
    }

    // The digest of the message.
    pub fn digest(&self) -> [u8; 32]
        ensures { result ≡ sha256_of (zero_tailed self.now.len self.now.lent.now) }
    {
        let whole = self.lent.len() / 64;
        let mut now = absorb_whole(INITIAL, self.lent, whole);
        for k in whole..self.block_count() {
            now = compress(now, self.tail_block(k));
        }
        serialised(now)
    }
}
