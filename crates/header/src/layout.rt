// Where fields stand, and what stands there.
ghost use Rattle.std.specs.Prelude.{◌≡◌};
ghost use Rattle.header.specs.Layout.{vendor_len, vendor_expiry, signers_needed, key_count, vtrust, string_len, string_start, string_end, picture_start, vendor_mask, first_room};

use code_header::CodeHeader;
use octets::{byte_at, u16_at, u32_at};

pub fn vendor_len(b: &[u8]) -> u32
    ensures { result ≡ vendor_len b.now }
{
    u32_at(b, 4)
}

pub fn vendor_expiry(b: &[u8]) -> u32
    ensures { result ≡ vendor_expiry b.now }
{
    u32_at(b, 8)
}

pub fn signers_needed(b: &[u8]) -> u8
    ensures { result ≡ signers_needed b.now }
{
    byte_at(b, 14)
}

pub fn key_count(b: &[u8]) -> u8
    ensures { result ≡ key_count b.now }
{
    byte_at(b, 15)
}

pub fn vtrust(b: &[u8]) -> u32
    ensures { result ≡ vtrust b.now }
{
    u16_at(b, 16)
}

pub fn string_len(b: &[u8]) -> u8
    ensures { result ≡ string_len b.now }
{
    byte_at(b, 32 + 32 * usize::from(key_count(b)))
}

// Where the string of a vendor with n keys starts.
pub fn string_start(n: u8) -> usize
    ensures { result ≡ string_start n }
{
    32 + 32 * usize::from(n) + 1
}

// Where a string of s bytes ends.
pub fn string_end(n: u8, s: u8) -> usize
    ensures { result ≡ string_end n s }
{
    string_start(n) + usize::from(s)
}

// Where the picture area behind it starts.
pub fn picture_start(n: u8, s: u8) -> usize
    ensures { result ≡ picture_start n s }
{
    string_end(n, s).next_multiple_of(4)
}

pub fn vendor_mask(b: &[u8]) -> u8
    ensures { result ≡ vendor_mask b.now }
{
    byte_at(b, (vendor_len(b) as usize).saturating_sub(65))
}

// How many bytes of code chunk 1 has room for, behind a vendor header of v bytes.
pub fn first_room(v: usize) -> usize
    ensures { result ≡ first_room v }
{
    (131072 - 1024usize).saturating_sub(v)
}

// The firmware header, which starts at v.
pub fn firmware_header(b: &[u8]) -> CodeHeader<'_>
    ensures bytes { result.bytes.now ≡ b.now }
    ensures at { result.at ≡ vendor_len b.now }
{
    CodeHeader {
        bytes: b,
        at: vendor_len(b),
    }
}
