// Images and loaders built by hand, byte by byte, after the tables of the specification. No writer makes
// them, and no reader of a header tells where a field stands. What the families of images share is
// built once, over where the header stands, the room of chunk 1 and the hash.
//
// Every function is total: what would fall past the end of the buffer is dropped, and a copy that
// would is not made.
use crate::rows::{Row, Word};

// The hashes that images are made with.
#[derive(Clone, Copy)]
pub enum Hash {
    Blake2s,
    Sha256,
}

impl Hash {
    // The hash of bytes.
    fn digest(self, bytes: &[u8]) -> [u8; 32] {
        match self {
            Hash::Blake2s => blake2s::blake2s(bytes),
            Hash::Sha256 => sha256::sha256(bytes),
        }
    }
}

// A family of images: where the header in front of the code stands, how many bytes chunk 1 has room for,
// and the hash.
#[derive(Clone, Copy)]
pub struct Family {
    pub at: u32,
    pub first: u32,
    pub hash: Hash,
}

impl Family {
    // Firmware behind a vendor header of v bytes, and loaders, whose v is 0.
    pub fn behind(v: u32) -> Self {
        Family {
            at: v,
            first: 130048u32.saturating_sub(v),
            hash: Hash::Blake2s,
        }
    }
}

// The byte at a place, x.
pub fn set(b: &mut [u8], at: usize, x: u8) {
    if at < b.len() {
        b[at] = x;
    }
}

// The bytes from a place up to another, all x.
pub fn fill(b: &mut [u8], from: usize, to: usize, x: u8) {
    let to = to.min(b.len());
    if from < to {
        b[from..to].fill(x);
    }
}

// Bytes that repeat only after 251, and are never 0 and never 255: a zero byte or an erased one that
// is read in their stead is seen.
pub fn pattern(b: &mut [u8], to: usize) {
    for (i, byte) in b.iter_mut().enumerate().take(to) {
        *byte = (1 + i % 251) as u8;
    }
}

// The bytes of another slice, from a place on.
pub fn copy(b: &mut [u8], from: usize, bytes: &[u8]) {
    if from <= b.len() && bytes.len() <= b.len() - from {
        let to = from + bytes.len();
        b[from..to].copy_from_slice(bytes);
    }
}

// The lowest byte of a number.
fn low(x: u32) -> u8 {
    x.to_le_bytes()[0]
}

// The places of an image: where its vendor header ends, its keys, its string from and to, its picture,
// its code, and where the image ends.
#[derive(Clone, Copy)]
pub struct Layout {
    pub v: u32,
    pub keys: usize,
    pub string: usize,
    pub padding: usize,
    pub picture: usize,
    pub code: usize,
    pub end: usize,
}

impl Layout {
    // The places of a row's image: a vendor header of 512 bytes, 2 keys, and 4 bytes of string and of code,
    // unless the row says otherwise.
    pub fn of(row: Row) -> Self {
        let v = row.number(Word::V).unwrap_or(512);
        let keys = 32 + 32 * row.size(Word::Keys, 2);
        let string = keys + 1;
        let padding = string + row.size(Word::String, 4);
        let code = v as usize + 1024;
        Layout {
            v,
            keys,
            string,
            padding,
            picture: padding.next_multiple_of(4),
            code,
            end: code + row.size(Word::Code, 4),
        }
    }
}

// The fixed fields of the vendor header: no expiry, version 9.8, m of n keys, vtrust 0xFFF6.
fn vendor_fields(row: Row, v: u32, b: &mut [u8]) {
    let m = low(row.number(Word::M).unwrap_or(2));
    let n = low(row.number(Word::Keys).unwrap_or(2));
    copy(
        b,
        0,
        b"TRZV\0\0\0\0\0\0\0\0\0\0\0\0\xF6\xFF\0\0\0\0\0\0\0\0\0\0\0\0\0\0",
    );
    copy(b, 4, &v.to_le_bytes());
    copy(b, 12, &[9, 8, m, n]);
}

// What is no pattern behind them: the string's length, its padding, and a mask of the first two keys.
fn vendor_areas(row: Row, p: Layout, b: &mut [u8]) {
    set(b, p.keys, low(row.number(Word::String).unwrap_or(4)));
    fill(b, p.padding, p.picture, 0);
    set(b, p.code.saturating_sub(1089), 3);
}

// What all headers in front of code start with, from a place on: a magic, no expiry, so many bytes of
// code, version 1.2.3.4, fix version 5.6.7.8, and zeros up to the end of the hashes.
pub fn code_header(magic: &[u8], codelen: u32, at: u32, b: &mut [u8]) {
    let from = at as usize;
    copy(
        b,
        from,
        b"\0\0\0\0\x00\x04\0\0\0\0\0\0\0\0\0\0\x01\x02\x03\x04\x05\x06\x07\x08",
    );
    copy(b, from, magic);
    copy(b, from + 12, &codelen.to_le_bytes());
    fill(b, from + 24, from + 544, 0);
}

// The header of firmware and of loaders, up to its sig: a mask of the first two keys behind zeros.
fn masked_header(magic: &[u8], codelen: u32, at: u32, b: &mut [u8]) {
    let from = at as usize;
    let mask = from + 959;
    code_header(magic, codelen, at, b);
    fill(b, from + 544, mask, 0);
    set(b, mask, 3);
}

// The hash at k, from 0, of an image that ends at a place.
fn put_hash(family: Family, end: usize, k: u32, b: &mut [u8]) {
    let at = family.at as usize;
    let code = at + 1024;
    let full = code + family.first as usize + 131072 * (k as usize);
    let from = if k == 0 { code } else { full - 131072 };
    let to = full.min(end);
    if from < to {
        let digest = family.hash.digest(octets::part(b, from, to));
        copy(b, at + 32 + 32 * (k as usize), &digest);
    }
}

// The first hashes, so many as the row says, otherwise all.
pub fn hashes(row: Row, family: Family, end: usize, b: &mut [u8]) {
    for k in 0..row.number(Word::Hashed).unwrap_or(16) {
        put_hash(family, end, k, b);
    }
}

// A byte that the row changes.
pub fn edit_byte(row: Row, word: Word, b: &mut [u8]) {
    if let Some(edit) = row.numbers::<2>(word) {
        let [at, x] = edit;
        set(b, at as usize, low(x));
    }
}

// A hash, which becomes the digest of nothing, a word and a byte that the row changes.
pub fn edit_one(row: Row, family: Family, b: &mut [u8]) {
    if let Some(k) = row.number(Word::Nothing) {
        let at = family.at as usize + 32 * (k as usize);
        copy(b, at, &family.hash.digest(b""));
    }
    if let Some(edit) = row.numbers::<2>(Word::Word) {
        let [at, x] = edit;
        copy(b, at as usize, &x.to_le_bytes());
    }
    edit_byte(row, Word::Byte, b);
}

// All that the row changes: these and a second byte.
pub fn edit(row: Row, family: Family, b: &mut [u8]) {
    edit_one(row, family, b);
    edit_byte(row, Word::And, b);
}

// How many bytes a row lends: so many as it says, otherwise those of the image, and not fewer than
// `least`.
fn lent_of(row: Row, end: usize, least: usize) -> usize {
    row.size(Word::Lent, end.max(least))
}

// The image of a row, at the start of a buffer. The bytes behind it are erased, a page or as many as
// are lent.
pub fn build(row: Row, b: &mut [u8]) {
    let p = Layout::of(row);
    let family = Family::behind(p.v);
    pattern(b, p.end);
    vendor_fields(row, p.v, b);
    vendor_areas(row, p, b);
    masked_header(b"TRZF", row.number(Word::Code).unwrap_or(4), p.v, b);
    hashes(row, family, p.end, b);
    fill(b, p.end, 8192, 255);
    fill(b, p.end, lent_of(row, p.end, 8192), 255);
    edit(row, family, b);
}

// A loader with so many bytes of code, at the start of a buffer, and x behind it as far as bytes are
// lent. Its header is laid out like the firmware header.
pub fn area(row: Row, codelen: u32, lent: usize, x: u8, b: &mut [u8]) {
    let end = 1024 + codelen as usize;
    pattern(b, end);
    masked_header(b"TRZB", codelen, 0, b);
    hashes(row, Family::behind(0), end, b);
    fill(b, end, lent, x);
}

// What a row lends of the buffer.
pub fn lent<'a>(row: Row, least: usize, b: &'a [u8]) -> &'a [u8] {
    octets::part(b, 0, lent_of(row, Layout::of(row).end, least))
}
