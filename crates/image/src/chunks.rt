// The code in chunks, and S23: the header's sixteen hashes against them.
//
// The chunks are told by the room that the first one has, and their hashes by the digest: that is all
// that differs between one family of images and another. The writer makes its hashes with the same
// calls.
ghost use Rattle.std.specs.Prelude.{◌≡◌, ℕ, List, [], ◌∷◌};
ghost use Rattle.blake2s.specs.Rfc7693.{blake2s_of};
ghost use Rattle.sha256.specs.Fips180.{sha256_of};
ghost use Rattle.header.specs.Table.{first_failing};
ghost use Rattle.image.specs.Chunks.{room_of, hash_of, hash_table_at, code_at, wrong_hash, chunk_row, chunk_rows, hash_rows};

use crate::areas::code_span_at;
use blake2s::blake2s;
use code_header::CodeHeader;
use header::layout::{firmware_header, first_room, vendor_len};
use header::{Outcome, Refusal};
use octets::{bytes_at, part, same_digest, span_of};
use sha256::sha256;

// The digest that the hashes of a family of images are.
pub trait HashFunction {
    ghost digest_of: { List ℕ → List ℕ };

    fn digest(bytes: &[u8]) -> [u8; 32]
        ensures { result ≡ digest_of bytes.now };
}

// BLAKE2s, of images and of loaders.
pub struct Blake2s;

impl HashFunction for Blake2s {
    ghost digest_of = { blake2s_of };

    fn digest(bytes: &[u8]) -> [u8; 32] {
        blake2s(bytes)
    }
}

// SHA-256, of the older model's images.
pub struct Sha256;

impl HashFunction for Sha256 {
    ghost digest_of = { sha256_of };

    fn digest(bytes: &[u8]) -> [u8; 32] {
        sha256(bytes)
    }
}

// The room of the chunk at k.
pub fn room_of(first: usize, k: usize) -> usize
    ensures { result ≡ room_of first k }
{
    if k == 0 { first } else { 131072 }
}

// The hash of a chunk that holds these bytes.
pub fn hash_of<H: HashFunction>(bytes: &[u8]) -> [u8; 32]
    ensures { result ≡ hash_of H.digest_of bytes.now }
{
    if bytes.is_empty() {
        return [0; 32];
    }
    H::digest(bytes)
}

// The sixteen hashes of a header that starts at an offset.
fn hash_table_at(header: CodeHeader<'_>) -> [[u8; 32]; 16]
    ensures { result ≡ hash_table_at header.entry.bytes.now header.entry.at }
{
    let b = header.bytes;
    let from = header.at as usize + 32;
    let mut t = [[0; 32]; 16];
    for k in 0..16 {
        t[k] = bytes_at(b, from + 32 * k);
    }
    t
}

// How a chunk with a wrong hash is refused: 14 if it is used, 15 if it holds nothing.
fn wrong_hash(bytes: &[u8], k: u32) -> Refusal
    ensures { result ≡ wrong_hash bytes.now k }
{
    let number = if bytes.is_empty() { 15 } else { 14 };
    Refusal {
        number,
        part: 3,
        chunk: k,
    }
}

// Chunk number k against its hash.
fn chunk_row<H: HashFunction>(k: u32, bytes: &[u8], told: [u8; 32]) -> Outcome
    ensures { result ≡ first_failing (chunk_row H.digest_of k bytes.now told ∷ []) }
{
    let right = hash_of::<H>(bytes);
    if same_digest(right, told) {
        return Ok(());
    }
    Err(wrong_hash(bytes, k))
}

// S23, of the code behind a header that starts at an offset, by the digest and by the room that the
// first chunk has.
pub fn chunk_rows_at<H: HashFunction>(header: CodeHeader<'_>, first: u32) -> Outcome
    ensures { result ≡ first_failing (chunk_rows H.digest_of first (code_at header.entry.bytes.now header.entry.at) (hash_table_at header.entry.bytes.now header.entry.at) 0 16) }
{
    let table = hash_table_at(header);
    let code = span_of(header.bytes, code_span_at(header));
    let room = first as usize;
    let mut from = 0;
    for k in 0..16 {
        let next = from + room_of(room, k);
        let told = table[k];
        chunk_row::<H>(k as u32 + 1, part(code, from, next), told)?;
        from = next;
    }
    Ok(())
}

// S23, of an image.
#[tactic(auto, unfolding(crate::specs::Chunks::hash_table, crate::specs::Chunks::hash_rows))]
pub fn hash_rows(b: &[u8]) -> Outcome
    ensures { result ≡ first_failing (hash_rows b.now) }
{
    let room = first_room(vendor_len(b) as usize) as u32;
    chunk_rows_at::<Blake2s>(firmware_header(b), room)
}
