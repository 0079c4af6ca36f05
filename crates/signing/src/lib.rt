// What is signed (specification, 5): the digest to be signed of the vendor header, and of the firmware
// header. Asking for one is a digest question.
//
// A question asks for the shape of the headers alone. It looks at no time, no policy, no signer, no
// verdict and no code. Where the shape is wrong, the first failing step's refusal comes back, and no
// digest. Each is also answered with the first word of the bytes given apart. `places` tells what a chip
// needs beside the digest.
#![tactic(auto)]

pub mod places;
pub mod theorems;

ghost use Rattle.std.specs.Prelude.{◌≡◌, ◌++◌, ◌+◌, drop};
ghost use Rattle.blake2s.specs.Rfc7693.{blake2s_of};
ghost use Rattle.blake2s.specs.Parts.{zero_tailed};
ghost use Rattle.octets.specs.Read.{between};
ghost use Rattle.header.specs.Layout.{vendor_len, mask_at};
ghost use Rattle.header.specs.Table.{first_failing};
ghost use Rattle.header.specs.Outcome.{told};
ghost use Rattle.signing.specs.Digests.{vendor_rows, firmware_rows, signed_vendor, signed_at, signed_firmware, answered, vendor_digest, firmware_digest};

use blake2s::{blake2s_word_apart, blake2s_zero_tailed};
use code_header::CodeHeader;
use header::layout::{firmware_header, vendor_len};
use header::steps::vendor_magic_missing;
use header::table::{firmware_shape, step, vendor_shape};
use header::{Outcome, Refusal};
use octets::{part, starts_with};

// The digest to be signed, or the refusal.
pub type Digest = Result<[u8; 32], Refusal>;

fn vendor_rows(magic_missing: bool, b: &[u8]) -> Outcome
    ensures { result ≡ first_failing (vendor_rows magic_missing b.now) }
{
    step(magic_missing, 1, 1)?;
    vendor_shape(b)
}

fn firmware_rows(magic_missing: bool, b: &[u8]) -> Outcome
    ensures { result ≡ first_failing (firmware_rows magic_missing b.now) }
{
    step(magic_missing, 1, 1)?;
    vendor_shape(b)?;
    firmware_shape(b)
}

#[tactic(auto, unfolding(crate::specs::Digests::signed_vendor))]
fn vendor_header_digest(b: &[u8]) -> [u8; 32]
    ensures { result ≡ blake2s_of (signed_vendor b.now) }
{
    blake2s_zero_tailed(part(b, 0, (vendor_len(b) as usize).saturating_sub(65)))
}

fn vendor_header_digest_word_apart(first: [u8; 4], b: &[u8]) -> [u8; 32]
    ensures { result ≡ blake2s_of (first ++ zero_tailed (between 4 (mask_at (vendor_len b.now)) b.now)) }
{
    blake2s_word_apart(
        first,
        part(b, 4, (vendor_len(b) as usize).saturating_sub(65)),
    )
}

fn header_digest_at(header: CodeHeader<'_>) -> [u8; 32]
    ensures { result ≡ blake2s_of (signed_at header.entry.bytes.now header.entry.at) }
{
    let from = header.at as usize;
    blake2s_zero_tailed(part(header.bytes, from, from + 959))
}

// The digest of the header of 1,024 bytes that starts at an offset, where its rows pass.
pub fn answer_at(outcome: Outcome, header: CodeHeader<'_>) -> Digest
    ensures { result ≡ answered outcome (blake2s_of (signed_at header.entry.bytes.now header.entry.at)) }
{
    outcome?;
    Ok(header_digest_at(header))
}

// The digest to be signed of the vendor header.
pub fn vendor_digest(b: &[u8]) -> Digest
    ensures value { result ≡ vendor_digest b.now }
    ensures told { told result ≡ told (vendor_digest b.now) }
{
    vendor_rows(vendor_magic_missing(b), b)?;
    Ok(vendor_header_digest(b))
}

// The firmware header's, where S1 fails as told. Nothing else of it reads the first word.
#[tactic(auto, unfolding(crate::specs::Digests::signed_firmware))]
fn firmware_answer(magic_missing: bool, b: &[u8]) -> Digest
    ensures { result ≡ answered (first_failing (firmware_rows magic_missing b.now)) (blake2s_of (signed_firmware b.now)) }
{
    answer_at(firmware_rows(magic_missing, b), firmware_header(b))
}

// The digest to be signed of the firmware header.
pub fn firmware_digest(b: &[u8]) -> Digest
    ensures value { result ≡ firmware_digest b.now }
    ensures told { told result ≡ told (firmware_digest b.now) }
{
    firmware_answer(vendor_magic_missing(b), b)
}

// The vendor header's, where the first word is given apart: of first, and then the bytes from 4 on. What the
// two forms of a question share is over S1's answer; a trait of both forms would say that twice over.
pub fn vendor_digest_word_apart(first: [u8; 4], b: &[u8]) -> Digest
    ensures value { result ≡ vendor_digest (first ++ drop 4 b.now) }
    ensures told { told result ≡ told (vendor_digest (first ++ drop 4 b.now)) }
{
    vendor_rows(!starts_with(&first, b"TRZV"), b)?;
    Ok(vendor_header_digest_word_apart(first, b))
}

// The firmware header's, where the first word is given apart.
pub fn firmware_digest_word_apart(first: [u8; 4], b: &[u8]) -> Digest
    ensures value { result ≡ firmware_digest (first ++ drop 4 b.now) }
    ensures told { told result ≡ told (firmware_digest (first ++ drop 4 b.now)) }
{
    firmware_answer(!starts_with(&first, b"TRZV"), b)
}
