// The tests, each true where its step fails.
#![tactic(auto, unfolding(crate::specs::Steps::sheet_impossible, crate::specs::Steps::indexes_wrong_at, crate::specs::Steps::legacy_magic_missing, crate::specs::Steps::legacy_cut, crate::specs::Steps::legacy_code_len_wrong, crate::specs::Steps::legacy_bytes_not_zero, crate::specs::Steps::v2_code_len_wrong, crate::specs::Steps::code_len_other, crate::specs::Steps::v2_bytes_not_zero, octets::specs::Read::bytes_at))]

ghost use Rattle.std.specs.Prelude.{◌≡◌};
ghost use Rattle.older_model.specs.Steps.{sheet_impossible, no_key, indexes_wrong, indexes_wrong_at, verdict_missing, legacy_code_len, legacy_magic_missing, legacy_cut, legacy_code_len_wrong, legacy_bytes_not_zero, v2_code_len_wrong, code_len_other, v2_bytes_not_zero};

use crate::Verdicts;
use code_header::CodeHeader;
use octets::{all_are, bytes_at, part, starts_with, u32_at};

pub fn sheet_impossible(keys: u32) -> bool
    ensures { result ≡ sheet_impossible keys }
{
    !((3 <= keys) & (keys <= 255))
}

fn no_key(keys: u32, i: u8) -> bool
    ensures { result ≡ no_key keys i }
{
    (i == 0) | (keys < u32::from(i))
}

fn indexes_wrong(keys: u32, i: u8, j: u8, k: u8) -> bool
    ensures { result ≡ indexes_wrong keys i j k }
{
    no_key(keys, i) | no_key(keys, j) | no_key(keys, k) | (i == j) | (i == k) | (j == k)
}

pub fn indexes_wrong_at(b: &[u8], at: usize, keys: u32) -> bool
    ensures { result ≡ indexes_wrong_at b.now at keys }
{
    let [i, j, k]: [u8; 3] = bytes_at(b, at);
    indexes_wrong(keys, i, j, k)
}

pub fn verdict_missing(x: Verdicts) -> bool
    ensures { result ≡ verdict_missing x }
{
    !(x.one & x.two & x.three)
}

pub fn legacy_code_len(b: &[u8]) -> u32
    ensures { result ≡ legacy_code_len b.now }
{
    u32_at(b, 4)
}

pub fn legacy_magic_missing(b: &[u8]) -> bool
    ensures { result ≡ legacy_magic_missing b.now }
{
    !starts_with(part(b, 0, 4), b"TRZR")
}

pub fn legacy_cut(b: &[u8]) -> bool
    ensures { result ≡ legacy_cut b.now }
{
    b.len() < 256
}

pub fn legacy_code_len_wrong(b: &[u8]) -> bool
    ensures { result ≡ legacy_code_len_wrong b.now }
{
    let c = legacy_code_len(b);
    (c % 4 != 0) | (c < 1028) | (2096896 < c)
}

pub fn legacy_bytes_not_zero(b: &[u8]) -> bool
    ensures { result ≡ legacy_bytes_not_zero b.now }
{
    !all_are(part(b, 11, 64), 0)
}

pub fn v2_code_len_wrong(other: bool, header: CodeHeader<'_>) -> bool
    ensures { result ≡ v2_code_len_wrong other header.entry.bytes.now header.entry.at }
{
    header.code_len_wrong(2095872) | other
}

pub fn code_len_other(b: &[u8]) -> bool
    ensures { result ≡ code_len_other b.now }
{
    let header = CodeHeader { bytes: b, at: 256 };
    header.code_len() as usize + 1024 != legacy_code_len(b) as usize
}

pub fn v2_bytes_not_zero(header: CodeHeader<'_>) -> bool
    ensures { result ≡ v2_bytes_not_zero header.entry.bytes.now header.entry.at }
{
    header.bytes_not_zero(0x2E3, 1024)
}
