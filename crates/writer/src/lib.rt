// The writers of the two headers.
//
// A writer answers the header's length, or a refusal's number. A refused call changes no byte of the
// output, and a successful one none behind the header. Any lengths get an answer: each is tested
// against its limit before it is added to another.
#![tactic(auto)]

mod cursor;
pub mod theorems;

ghost use Rattle.std.specs.Prelude.{◌≡◌, ◌+◌, ◌≤◌, ◌*◌, length, ltb};
ghost use Rattle.octets.specs.Rounding.{round_up};
ghost use Rattle.header.specs.Layout.{picture_start};
ghost use Rattle.header.specs.Table.{first_failing};
ghost use Rattle.blake2s.specs.Rfc7693.{blake2s_of};
ghost use Rattle.image.specs.Chunks.{hashes_of};
ghost use Rattle.writer.specs.Cursor.{Wrote};
ghost use Rattle.writer.specs.Writers.{told};
ghost use Rattle.writer.specs.Vendor.{vendor_head, vendor_front, vendor_back, vendor_refusals, vendor_answer, vendor_output};
ghost use Rattle.writer.specs.Firmware.{quad, firmware_head, firmware_fields, firmware_refusals, firmware_answer, firmware_output};

use cursor::Cursor;
use header::Outcome;
use header::layout::{first_room, picture_start};
use header::steps::{code_len_impossible, keys_impossible, length_impossible};
use header::table::step;
use image::Version;
use image::chunks::{Blake2s, hash_of, room_of};
use octets::part;

// The numbers of a vendor header: m of n is what its keys ask of a firmware header.
#[derive(Clone, Copy, PartialEq, Eq, Debug)]
pub struct Vendor {
    pub expiry: u32,
    pub major: u8,
    pub minor: u8,
    pub m: u8,
    pub n: u8,
    pub trust: u16,
    pub mask: u8,
}

// The numbers of a firmware header.
#[derive(Clone, Copy, PartialEq, Eq, Debug)]
pub struct Firmware {
    pub expiry: u32,
    pub version: Version,
    pub fix: Version,
    pub mask: u8,
}

// A writer's answer: the header's length, or the number with which it refused. The refusal is that
// number alone: `abi::headers::tell` tells any number, and a narrower type would ask more of it.
pub type Written = Result<usize, u32>;

// Offsets 0 to 31 of a vendor header of v bytes.
fn vendor_head(cursor: &mut Cursor<'_>, f: Vendor, v: u32)
    requires { cursor.old.at + 32 ≤ length cursor.old.out.now }
    ensures wrote { Wrote (vendor_head f v) cursor.old cursor.new }
    ensures place { cursor.new.at ≡ cursor.old.at + 32 }
{
    cursor.bytes(b"TRZV");
    cursor.bytes(&v.to_le_bytes());
    cursor.bytes(&f.expiry.to_le_bytes());
    cursor.bytes(&[f.major, f.minor, f.m, f.n]);
    cursor.bytes(&f.trust.to_le_bytes());
    cursor.zeros(14);
}

// The fields up to the picture.
fn vendor_front(cursor: &mut Cursor<'_>, v: u32, f: Vendor, keys: &[u8], string: &[u8])
    requires start { cursor.old.at ≡ 0 }
    requires room { picture_start f.n (length string.now) ≤ length cursor.old.out.now }
    requires keys { length keys.now ≡ 32 * f.n }
    requires string { length string.now ≤ 255 }
    ensures wrote { Wrote (vendor_front v f keys.now string.now) cursor.old cursor.new }
    ensures place { cursor.new.at ≡ picture_start f.n (length string.now) }
{
    let s = string.len() as u8;
    vendor_head(cursor, f, v);
    cursor.bytes(keys);
    cursor.byte(s);
    cursor.bytes(string);
    cursor.zeros(picture_start(f.n, s) - cursor.at);
}

// The picture and what stands behind it.
fn vendor_back(cursor: &mut Cursor<'_>, v: usize, picture: &[u8], mask: u8, sig: &[u8; 64])
    requires room { v ≤ length cursor.old.out.now }
    requires picture { cursor.old.at + length picture.now + 65 ≤ v }
    ensures { Wrote (vendor_back v cursor.old.at picture.now mask sig.now) cursor.old cursor.new }
{
    cursor.bytes(picture);
    cursor.zeros(v - 65 - cursor.at);
    cursor.byte(mask);
    cursor.bytes(sig);
}

// The length of a vendor header whose picture starts at an offset and has so many bytes: the least
// multiple of 512 that holds both and the 65 bytes behind them.
fn size_of(start: usize, picture: usize) -> usize
    requires { (start ≤ 65536) × (picture ≤ 65536) }
    ensures { result ≡ round_up 512 (start + picture + 65) }
{
    (start + picture + 65).next_multiple_of(512)
}

// Whether a vendor header would be longer than 65,536 bytes. The picture may have any length.
fn too_long(start: usize, picture: usize) -> bool
    requires { start ≤ 65536 }
    ensures { result ≡ ltb 65536 (round_up 512 (start + picture + 65)) }
{
    65536 < picture || 65536 < size_of(start, picture)
}

// Why the vendor writer refuses, by the lengths of the keys, the string, the picture and the output.
fn vendor_refusals(f: Vendor, keys: usize, string: usize, picture: usize, room: usize) -> Outcome
    ensures { result ≡ first_failing (vendor_refusals f keys string picture room) }
{
    step(keys_impossible(u32::from(f.m), u32::from(f.n)), 4, 0)?;
    step((keys != 32 * usize::from(f.n)) | (255 < string), 20, 0)?;
    let start = picture_start(f.n, string as u8);
    step(too_long(start, picture), 3, 0)?;
    step(room < size_of(start, picture), 21, 0)
}

// The vendor header, written to the start of the output.
pub fn write_vendor(
    f: Vendor,
    keys: &[u8],
    string: &[u8],
    picture: &[u8],
    sig: &[u8; 64],
    out: &mut [u8],
) -> Written
    ensures value { (result ≡ vendor_answer f keys.now string.now picture.now out.old)
        × (out.new ≡ vendor_output f keys.now string.now picture.now sig.now out.old) }
    ensures told { told result ≡ told (vendor_answer f keys.now string.now picture.now out.old) }
{
    vendor_refusals(f, keys.len(), string.len(), picture.len(), out.len()).map_err(|r| r.number)?;
    let start = picture_start(f.n, string.len() as u8);
    let v = size_of(start, picture.len());
    let mut cursor = Cursor { out, at: 0 };
    vendor_front(&mut cursor, v as u32, f, keys, string);
    vendor_back(&mut cursor, v, picture, f.mask, sig);
    Ok(v)
}

// The hashes of the sixteen chunks of the code, the first of which has room for `first` bytes.
fn hashes_of(first: usize, code: &[u8]) -> [[u8; 32]; 16]
    requires { first ≤ 131072 }
    ensures { result ≡ hashes_of blake2s_of 16 first code.now }
{
    let mut t = [[0; 32]; 16];
    let mut at = 0;
    for k in 0..16 {
        let next = at + room_of(first, k);
        t[k] = hash_of::<Blake2s>(part(code, at, next));
        at = next;
    }
    t
}

// The four bytes of a version.
fn quad(x: Version) -> [u8; 4]
    ensures { result ≡ quad x }
{
    [x.major, x.minor, x.patch, x.build]
}

// Offsets 0 to 31 of a firmware header.
fn firmware_head(cursor: &mut Cursor<'_>, f: Firmware, codelen: u32)
    requires { cursor.old.at + 32 ≤ length cursor.old.out.now }
    ensures wrote { Wrote (firmware_head f codelen) cursor.old cursor.new }
    ensures place { cursor.new.at ≡ cursor.old.at + 32 }
{
    cursor.bytes(b"TRZF");
    cursor.bytes(&1024u32.to_le_bytes());
    cursor.bytes(&f.expiry.to_le_bytes());
    cursor.bytes(&codelen.to_le_bytes());
    cursor.bytes(&quad(f.version));
    cursor.bytes(&quad(f.fix));
    cursor.zeros(8);
}

// The fields, with the table of hashes one behind the other.
fn firmware_fields(
    cursor: &mut Cursor<'_>,
    f: Firmware,
    codelen: u32,
    table: [[u8; 32]; 16],
    sig: &[u8; 64],
)
    requires { cursor.old.at + 1024 ≤ length cursor.old.out.now }
    ensures { Wrote (firmware_fields f codelen table sig.now) cursor.old cursor.new }
{
    firmware_head(cursor, f, codelen);
    cursor.bytes(table.as_flattened());
    cursor.zeros(415);
    cursor.byte(f.mask);
    cursor.bytes(sig);
}

// Why the firmware writer refuses, by the lengths of the code and the output.
fn firmware_refusals(v: u32, codelen: usize, room: usize) -> Outcome
    ensures { result ≡ first_failing (firmware_refusals v codelen room) }
{
    step(length_impossible(v), 3, 0)?;
    step(code_len_impossible(v as usize, codelen), 12, 0)?;
    step(room < 1024, 21, 0)
}

// The firmware header, written to the start of the output, for code that stands behind a vendor
// header of v bytes.
pub fn write_firmware(v: u32, f: Firmware, code: &[u8], sig: &[u8; 64], out: &mut [u8]) -> Written
    ensures value { (result ≡ firmware_answer v code.now out.old)
        × (out.new ≡ firmware_output v f code.now sig.now out.old) }
    ensures told { told result ≡ told (firmware_answer v code.now out.old) }
{
    firmware_refusals(v, code.len(), out.len()).map_err(|r| r.number)?;
    let table = hashes_of(first_room(v as usize), code);
    let codelen = code.len() as u32;
    let mut cursor = Cursor { out, at: 0 };
    firmware_fields(&mut cursor, f, codelen, table, sig);
    Ok(1024)
}
