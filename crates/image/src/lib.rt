// The check of an image, as a file and as it stands in a slot: steps S1 to S23, and what it hands
// back.
//
// Any bytes, any inputs: an answer, and nothing is written. Nothing of the image is copied but its
// table of sixteen hashes and the last, partial block of a chunk. The check of a slot is the boot
// check.
#![tactic(auto)]

pub mod areas;
pub mod chunks;
pub mod theorems;

ghost use Rattle.std.specs.Prelude.{◌≡◌, ◌++◌, drop};
ghost use Rattle.octets.specs.Read.{span_of};
ghost use Rattle.header.specs.Table.{first_failing};
ghost use Rattle.image.specs.Chunks.{code_of};
ghost use Rattle.image.specs.Answer.{version_at, image_at, image_of, answer_of, told};
ghost use Rattle.image.specs.Check.{check_rows, check_file, check_slot};
ghost use Rattle.image.specs.Parts.{string_of, picture_of, when_accepted};

use areas::{code_span, picture_span, string_span};
use chunks::hash_rows;
use code_header::CodeHeader;
use header::layout::{firmware_header, vendor_len};
use header::steps::{bytes_follow, tail_not_erased, vendor_magic_missing};
use header::table::{extent_rows, header_rows};
use header::{Inputs, Outcome, Refusal};
use octets::{Span, bytes_at, span_of, starts_with};

// A version: major, minor, patch, build.
#[derive(Clone, Copy, PartialEq, Eq, Debug)]
pub struct Version {
    pub major: u8,
    pub minor: u8,
    pub patch: u8,
    pub build: u8,
}

// What an acceptance tells: the vendor header's length, the code's, and the two versions of the
// firmware header.
#[derive(Clone, Copy, PartialEq, Eq, Debug)]
pub struct Image {
    pub v: u32,
    pub codelen: u32,
    pub version: Version,
    pub fix: Version,
}

// What a check answers: an acceptance, or the first failing step's refusal.
pub type Answer = Result<Image, Refusal>;

#[tactic(auto, unfolding(octets::specs::Read::bytes_at))]
fn version_at(b: &[u8], at: usize) -> Version
    ensures { result ≡ version_at b.now at }
{
    let [major, minor, patch, build]: [u8; 4] = bytes_at(b, at);
    Version {
        major,
        minor,
        patch,
        build,
    }
}

fn image_at(v: u32, header: CodeHeader<'_>) -> Image
    ensures { result ≡ image_at header.entry.bytes.now v header.entry.at }
{
    let from = header.at as usize;
    Image {
        v,
        codelen: header.code_len(),
        version: version_at(header.bytes, from + 16),
        fix: version_at(header.bytes, from + 20),
    }
}

// The outcome of all steps as the answer. An acceptance tells v, and what the header says that starts
// at an offset.
pub fn answer_at(outcome: Outcome, v: u32, header: CodeHeader<'_>) -> Answer
    ensures { result ≡ answer_of outcome (image_at header.entry.bytes.now v header.entry.at) }
{
    outcome?;
    Ok(image_at(v, header))
}

// S1 to S23, where S1 and S22 fail as told.
#[tactic(auto, using(header::proofs::Rows::handed_on, header::proofs::Rows::stage_fails, header::proofs::Rows::stage_passes), unfolding(crate::specs::Check::check_rows))]
fn check_rows(magic_missing: bool, tail_wrong: bool, b: &[u8], given: Inputs) -> Outcome
    ensures { result ≡ first_failing (check_rows magic_missing tail_wrong b.now given) }
{
    header_rows(magic_missing, b, given)?;
    extent_rows(tail_wrong, b)?;
    hash_rows(b)
}

#[tactic(auto, unfolding(crate::specs::Answer::image_of))]
fn answer_of(outcome: Outcome, b: &[u8]) -> Answer
    ensures { result ≡ answer_of outcome (image_of b.now) }
{
    answer_at(outcome, vendor_len(b), firmware_header(b))
}

// The check of a file. It and the check of a slot differ in S22's test: a type for each and a trait of that
// test would be longer than the two.
#[tactic(auto, unfolding(crate::specs::Check::check_file))]
pub fn check_file(b: &[u8], given: Inputs) -> Answer
    ensures value { result ≡ check_file b.now given }
    ensures told { told result ≡ told (check_file b.now given) }
{
    answer_of(
        check_rows(vendor_magic_missing(b), bytes_follow(b), b, given),
        b,
    )
}

// The check of a slot, which is the boot check.
#[tactic(auto, unfolding(crate::specs::Check::check_slot))]
pub fn check_slot(b: &[u8], given: Inputs) -> Answer
    ensures value { result ≡ check_slot b.now given }
    ensures told { told result ≡ told (check_slot b.now given) }
{
    answer_of(
        check_rows(vendor_magic_missing(b), tail_not_erased(b), b, given),
        b,
    )
}

// The check of a file whose first word is given apart: of first, and then the bytes from 4 on.
pub fn check_file_word_apart(first: [u8; 4], b: &[u8], given: Inputs) -> Answer
    ensures value { result ≡ check_file (first ++ drop 4 b.now) given }
    ensures told { told result ≡ told (check_file (first ++ drop 4 b.now) given) }
{
    let outcome = check_rows(!starts_with(&first, b"TRZV"), bytes_follow(b), b, given);
    answer_of(outcome, b)
}

// The bytes of a span after an acceptance, and nothing after a refusal.
pub fn accepted_part(b: &[u8], answer: Answer, span: Span) -> &[u8]
    ensures { result.now ≡ when_accepted answer (span_of span b.now) }
{
    match answer {
        Err(_) => &b[..0],
        Ok(_) => span_of(b, span),
    }
}

// The vendor's string in the checked bytes, and nothing after a refusal.
pub fn string(b: &[u8], answer: Answer) -> &[u8]
    ensures { result.now ≡ when_accepted answer (string_of b.now) }
{
    accepted_part(b, answer, string_span(b))
}

// The picture area in the checked bytes, and nothing after a refusal.
pub fn picture(b: &[u8], answer: Answer) -> &[u8]
    ensures { result.now ≡ when_accepted answer (picture_of b.now) }
{
    accepted_part(b, answer, picture_span(b))
}

// The code in the checked bytes, and nothing after a refusal.
pub fn code(b: &[u8], answer: Answer) -> &[u8]
    ensures { result.now ≡ when_accepted answer (code_of b.now) }
{
    accepted_part(b, answer, code_span(b))
}
