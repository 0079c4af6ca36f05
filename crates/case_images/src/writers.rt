// Rows of the writers. What is written comes from an image that is built by hand: its fields, keys,
// string and code, and as much of its picture area as the row says. Before each call the output holds
// bytes of one value, so that a byte which is written where none should be is seen.
use crate::checks::inputs;
use case_rows::build::{Layout, fill, lent};
use case_rows::rows::{Row, Word};
use case_rows::show;
use image::{Answer, Version};
use octets::{byte_at, bytes_at, part, rest, u32_at};
use std::io;
use writer::{Firmware, Vendor, Written};

// The version at an offset.
fn version_at(bytes: &[u8], at: usize) -> Version {
    let [major, minor, patch, build] = bytes_at::<4>(bytes, at);
    Version {
        major,
        minor,
        patch,
        build,
    }
}

// The numbers of a vendor header, whose mask stands at a place.
fn vendor_numbers(bytes: &[u8], mask: usize) -> Vendor {
    let [major, minor, m, n] = bytes_at::<4>(bytes, 12);
    Vendor {
        expiry: u32_at(bytes, 8),
        major,
        minor,
        m,
        n,
        trust: u16::from_le_bytes(bytes_at(bytes, 16)),
        mask: byte_at(bytes, mask),
    }
}

// Writes a vendor header with the numbers and the sig of an image.
fn vendor_of(bytes: &[u8], keys: &[u8], string: &[u8], picture: &[u8], out: &mut [u8]) -> Written {
    let mask = (u32_at(bytes, 4) as usize).saturating_sub(65);
    let sig = bytes_at(bytes, mask + 1);
    let numbers = vendor_numbers(bytes, mask);
    writer::write_vendor(numbers, keys, string, picture, &sig, out)
}

// Writes a firmware header for v with the numbers and the sig of another.
fn firmware_of(header: &[u8], v: u32, code: &[u8], out: &mut [u8]) -> Written {
    let sig = bytes_at(header, 960);
    let numbers = Firmware {
        expiry: u32_at(header, 8),
        version: version_at(header, 16),
        fix: version_at(header, 20),
        mask: byte_at(header, 959),
    };
    writer::write_firmware(v, numbers, code, &sig, out)
}

// The output of a row: so many bytes as it says, if there are so many, and all 165.
fn output<'a>(row: Row, b: &'a mut [u8]) -> Option<&'a mut [u8]> {
    let out = b.get_mut(..row.size(Word::Room, 65536))?;
    out.fill(165);
    Some(out)
}

// What a writer answers, and the digest of its output.
fn print_written(rt: &impl Print, written: Written, out: &[u8]) -> io::Result<()> {
    match written {
        Ok(v) => print!(rt; " header {v}")?,
        Err(number) => print!(rt; " refused {number}")?,
    }
    show::digest(rt, "output", out)
}

// The vendor header of a row, with so many bytes of keys and of picture as it says.
pub fn vendor(rt: &impl Print, row: Row, image: &[u8], b: &mut [u8]) -> io::Result<()> {
    let Some(out) = output(row, b) else {
        return Ok(());
    };
    let p = Layout::of(row);
    let keys = row.size(Word::KeyBytes, p.keys.saturating_sub(32));
    let area = p.code.saturating_sub(1089).saturating_sub(p.picture);
    let picture = row.size(Word::Picture, area);
    let written = vendor_of(
        image,
        part(rest(image, 32), 0, keys),
        part(image, p.string, p.padding),
        part(rest(image, p.picture), 0, picture),
        out,
    );
    print_written(rt, written, out)
}

// The firmware header of a row.
pub fn firmware(rt: &impl Print, row: Row, image: &[u8], b: &mut [u8]) -> io::Result<()> {
    let Some(out) = output(row, b) else {
        return Ok(());
    };
    let p = Layout::of(row);
    let header = rest(image, p.v as usize);
    let written = firmware_of(header, p.v, part(image, p.code, p.end), out);
    print_written(rt, written, out)
}

// Writes both headers of a file again, from its fields and from the parts that the check hands back.
fn again(bytes: &[u8], answer: Answer, v: u32, out: &mut [u8]) {
    let keys = part(bytes, 32, 32 + 32 * usize::from(byte_at(bytes, 15)));
    let string = image::string(bytes, answer);
    let _ = vendor_of(bytes, keys, string, image::picture(bytes, answer), out);
    if let Some(out) = out.get_mut(v as usize..) {
        let header = rest(bytes, v as usize);
        let _ = firmware_of(header, v, image::code(bytes, answer), out);
    }
}

// A row of a round trip: a file is checked, taken apart and written again.
pub fn round_trip(rt: &impl Print, row: Row, image: &[u8], out: &mut [u8]) -> io::Result<()> {
    let bytes = lent(row, 0, image);
    let v = u32_at(bytes, 4);
    let end = v as usize + 1024;
    let answer = image::check_file(bytes, inputs(row));
    fill(out, 0, end, 165);
    again(bytes, answer, v, out);
    if bytes.starts_with(part(out, 0, end)) {
        print!(rt; " same")?;
    } else {
        print!(rt; " other")?;
    }
    show::answer(rt, answer)
}
