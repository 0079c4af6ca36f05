// The steps, each as a test that is true where the step fails. The definitions in
// `specs/Steps.antt` say which step of the specification each is.
#![tactic(auto, unfolding(crate::specs::Steps::vendor_magic_missing, crate::specs::Steps::policy_impossible, crate::specs::Steps::shorter_than_any_header, crate::specs::Steps::vendor_len_impossible, crate::specs::Steps::vendor_header_cut, crate::specs::Steps::vendor_keys_impossible, crate::specs::Steps::string_leaves_no_room, crate::specs::Steps::vendor_bytes_not_zero, crate::specs::Steps::vendor_expired, crate::specs::Steps::vendor_mask_wrong, crate::specs::Steps::firmware_header_cut, crate::specs::Steps::firmware_magic_missing, crate::specs::Steps::firmware_len_wrong, crate::specs::Steps::first_chunk_has_no_room, crate::specs::Steps::code_len_wrong, crate::specs::Steps::firmware_bytes_not_zero, crate::specs::Steps::firmware_expired, crate::specs::Steps::firmware_mask_wrong, crate::specs::Steps::bytes_follow, crate::specs::Steps::tail_not_erased))]

ghost use Rattle.std.specs.Prelude.{◌≡◌};
ghost use Rattle.header.specs.Steps.{keys_impossible, length_impossible, code_len_impossible, vendor_magic_missing, policy_impossible, shorter_than_any_header, vendor_len_impossible, vendor_header_cut, vendor_keys_impossible, string_leaves_no_room, vendor_bytes_not_zero, vendor_expired, vendor_mask_wrong, firmware_header_cut, firmware_magic_missing, firmware_len_wrong, first_chunk_has_no_room, code_len_wrong, firmware_bytes_not_zero, firmware_expired, firmware_mask_wrong, bytes_follow, tail_not_erased};

use crate::layout::{
    firmware_header, first_room, key_count, picture_start, signers_needed, string_end, string_len,
    vendor_expiry, vendor_len, vendor_mask,
};
use code_header::tests::{code_len_outside, expired, mask_wrong};
use octets::{all_are, part, starts_with};

pub fn keys_impossible(m: u32, n: u32) -> bool
    ensures { result ≡ keys_impossible m n }
{
    !((1 <= m) & (m <= n) & (n <= 8))
}

pub fn length_impossible(v: u32) -> bool
    ensures { result ≡ length_impossible v }
{
    (v % 512 != 0) | (v < 512) | (65536 < v)
}

pub fn code_len_impossible(v: usize, c: usize) -> bool
    ensures { result ≡ code_len_impossible v c }
{
    code_len_outside((2097152 - 1024usize).saturating_sub(v), c)
}

pub fn vendor_magic_missing(b: &[u8]) -> bool
    ensures { result ≡ vendor_magic_missing b.now }
{
    !starts_with(b, b"TRZV")
}

pub fn policy_impossible(m: u32, n: u32) -> bool
    ensures { result ≡ policy_impossible m n }
{
    keys_impossible(m, n)
}

pub fn shorter_than_any_header(b: &[u8]) -> bool
    ensures { result ≡ shorter_than_any_header b.now }
{
    b.len() < 512
}

pub fn vendor_len_impossible(b: &[u8]) -> bool
    ensures { result ≡ vendor_len_impossible b.now }
{
    length_impossible(vendor_len(b))
}

pub fn vendor_header_cut(b: &[u8]) -> bool
    ensures { result ≡ vendor_header_cut b.now }
{
    b.len() < vendor_len(b) as usize
}

pub fn vendor_keys_impossible(b: &[u8]) -> bool
    ensures { result ≡ vendor_keys_impossible b.now }
{
    keys_impossible(u32::from(signers_needed(b)), u32::from(key_count(b)))
}

pub fn string_leaves_no_room(b: &[u8]) -> bool
    ensures { result ≡ string_leaves_no_room b.now }
{
    (vendor_len(b) as usize) < picture_start(key_count(b), string_len(b)) + 65
}

pub fn vendor_bytes_not_zero(b: &[u8]) -> bool
    ensures { result ≡ vendor_bytes_not_zero b.now }
{
    let n = key_count(b);
    let s = string_len(b);
    !(all_are(part(b, 18, 32), 0) & all_are(part(b, string_end(n, s), picture_start(n, s)), 0))
}

pub fn vendor_expired(b: &[u8], time: u32) -> bool
    ensures { result ≡ vendor_expired b.now time }
{
    expired(vendor_expiry(b), time)
}

pub fn vendor_mask_wrong(b: &[u8], m: u32, n: u32) -> bool
    ensures { result ≡ vendor_mask_wrong b.now m n }
{
    mask_wrong(m, n, vendor_mask(b))
}

pub fn firmware_header_cut(b: &[u8]) -> bool
    ensures { result ≡ firmware_header_cut b.now }
{
    firmware_header(b).is_cut()
}

pub fn firmware_magic_missing(b: &[u8]) -> bool
    ensures { result ≡ firmware_magic_missing b.now }
{
    firmware_header(b).magic_missing(b"TRZF")
}

pub fn firmware_len_wrong(b: &[u8]) -> bool
    ensures { result ≡ firmware_len_wrong b.now }
{
    firmware_header(b).hdr_len_wrong()
}

pub fn first_chunk_has_no_room(b: &[u8]) -> bool
    ensures { result ≡ first_chunk_has_no_room b.now }
{
    first_room(vendor_len(b) as usize) == 0
}

pub fn code_len_wrong(b: &[u8]) -> bool
    ensures { result ≡ code_len_wrong b.now }
{
    let header = firmware_header(b);
    code_len_impossible(header.at as usize, header.code_len() as usize)
}

pub fn firmware_bytes_not_zero(b: &[u8]) -> bool
    ensures { result ≡ firmware_bytes_not_zero b.now }
{
    firmware_header(b).bytes_not_zero(544, 959)
}

pub fn firmware_expired(b: &[u8], time: u32) -> bool
    ensures { result ≡ firmware_expired b.now time }
{
    firmware_header(b).expired(time)
}

pub fn firmware_mask_wrong(b: &[u8]) -> bool
    ensures { result ≡ firmware_mask_wrong b.now }
{
    firmware_header(b).mask_wrong(u32::from(signers_needed(b)), u32::from(key_count(b)))
}

pub fn bytes_follow(b: &[u8]) -> bool
    ensures { result ≡ bytes_follow b.now }
{
    firmware_header(b).bytes_follow()
}

pub fn tail_not_erased(b: &[u8]) -> bool
    ensures { result ≡ tail_not_erased b.now }
{
    firmware_header(b).tail_not(255)
}
