// Images of the older model built by hand, byte by byte, after document 004: the V2 header and code, by
// themselves or behind a legacy header.
use case_rows::build;
use case_rows::build::{Family, Hash};
use case_rows::rows::{Row, Word};

// The legacy header in front of a V2 header and so many bytes of code, up to its signatures: keys 1, 3
// and 5 have signed it. There is none where the V2 header stands at 0.
fn legacy(codelen: u32, at: u32, b: &mut [u8]) {
    if at == 0 {
        return;
    }
    build::copy(b, 0, b"TRZR\0\0\0\0\x01\x03\x05");
    build::copy(b, 4, &codelen.wrapping_add(1024).to_le_bytes());
    build::fill(b, 11, 64, 0);
}

// The V2 header at a place: keys 2, 5 and 4 have signed it, and zeros follow.
fn v2(codelen: u32, at: u32, b: &mut [u8]) {
    let from = at as usize;
    build::code_header(b"TRZF", codelen, at, b);
    build::copy(b, from + 736, b"\x02\x05\x04");
    build::fill(b, from + 739, from + 1024, 0);
}

// The image of a row, whose V2 header stands at a place, at the start of a buffer, and erased bytes
// behind it as far as bytes are lent. No byte of a signature is 0.
fn prepare(row: Row, at: u32, codelen: u32, lent: usize, b: &mut [u8]) {
    let family = Family {
        at,
        first: 129792,
        hash: Hash::Sha256,
    };
    let end = 1024 + at as usize + codelen as usize;
    build::pattern(b, end);
    legacy(codelen, at, b);
    v2(codelen, at, b);
    build::hashes(row, family, end, b);
    build::fill(b, end, lent, 255);
    build::edit(row, family, b);
}

// The bytes that a row lends: its image, with 4 bytes of code unless the row says otherwise, and so many
// erased bytes behind it.
pub fn lent<'a>(row: Row, at: u32, erased: u32, b: &'a mut [u8]) -> &'a [u8] {
    let codelen = row.number(Word::Code).unwrap_or(4);
    let all = 1024 + at as usize + codelen as usize + erased as usize;
    let lent = row.size(Word::Lent, all);
    prepare(row, at, codelen, lent, b);
    octets::part(b, 0, lent)
}
