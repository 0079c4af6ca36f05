// The loader, which is the second stage of the signer's start (specification, 16): its check on a
// memory card and in the internal area, the digest to be signed, and the choice between the two.
//
// A loader is a header of 1,024 bytes, laid out like the firmware header, and code, all of it in chunk
// 1. There is no vendor header. Any bytes, any inputs: an answer, and nothing is written.
#![tactic(auto)]

pub mod choice;
pub mod theorems;

ghost use Rattle.std.specs.Prelude.{◌≡◌};
ghost use Rattle.header.specs.Table.{first_failing};
ghost use Rattle.header.specs.Outcome as outcome;
ghost use Rattle.image.specs.Answer.{told};
ghost use Rattle.image.specs.Parts.{when_accepted};
ghost use Rattle.loader.specs.Check.{code_of, magic_missing, shape_rows, policy_rows, extent_rows, hash_rows, area_rows, check_area, check_card, check_internal};
ghost use Rattle.loader.specs.Digest.{digest_rows, loader_digest};

use code_header::CodeHeader;
use header::Outcome;
use header::steps::policy_impossible;
use header::table::{extent_rows_at, step};
use image::areas::code_span_at;
use image::chunks::{Blake2s, chunk_rows_at};
use image::{Answer, accepted_part, answer_at};
use signing::Digest;

// What the checks are given besides the bytes: the time, the key policy m of n, and the signature
// chip's word on the card's loader and on the internal one. Each check asks its own verdict alone. The
// verdicts are by area, and those of `header::Inputs` by header: `IsLoader` and `BothSigned` name them.
#[derive(Clone, Copy, PartialEq, Eq, Debug)]
pub struct AreaInputs {
    pub time: u32,
    pub m: u32,
    pub n: u32,
    pub card: bool,
    pub internal: bool,
}

// S1 fails.
#[tactic(auto, unfolding(crate::specs::Check::magic_missing))]
fn magic_missing(b: &[u8]) -> bool
    ensures { result ≡ magic_missing b.now }
{
    CodeHeader { bytes: b, at: 0 }.magic_missing(b"TRZB")
}

// The length, S14, S16 and S17.
fn shape_rows(b: &[u8]) -> Outcome
    ensures { result ≡ first_failing (shape_rows b.now) }
{
    let header = CodeHeader { bytes: b, at: 0 };
    step(header.is_cut(), 2, 2)?;
    step(header.hdr_len_wrong(), 11, 2)?;
    step(header.code_len_wrong(130048), 12, 2)?;
    step(header.bytes_not_zero(544, 959), 6, 2)
}

// S18 to S20.
fn policy_rows(b: &[u8], given: AreaInputs, verdict: bool) -> Outcome
    ensures { result ≡ first_failing (policy_rows b.now given verdict) }
{
    let header = CodeHeader { bytes: b, at: 0 };
    step(header.expired(given.time), 7, 2)?;
    step(header.mask_wrong(given.m, given.n), 8, 2)?;
    step(!verdict, 9, 2)
}

// S21 and S22.
#[tactic(auto, unfolding(crate::specs::Check::extent_rows))]
fn extent_rows(tail: u8, b: &[u8]) -> Outcome
    ensures { result ≡ first_failing (extent_rows tail b.now) }
{
    let header = CodeHeader { bytes: b, at: 0 };
    extent_rows_at(header.tail_not(tail), header)
}

// S23.
#[tactic(auto, unfolding(crate::specs::Check::hash_rows))]
fn hash_rows(b: &[u8]) -> Outcome
    ensures { result ≡ first_failing (hash_rows b.now) }
{
    chunk_rows_at::<Blake2s>(CodeHeader { bytes: b, at: 0 }, 130048)
}

// All steps, where the later bytes must be tail.
fn area_rows(tail: u8, b: &[u8], given: AreaInputs, verdict: bool) -> Outcome
    ensures { result ≡ first_failing (area_rows tail b.now given verdict) }
{
    step(magic_missing(b), 1, 2)?;
    step(policy_impossible(given.m, given.n), 16, 0)?;
    shape_rows(b)?;
    policy_rows(b, given, verdict)?;
    extent_rows(tail, b)?;
    hash_rows(b)
}

#[tactic(auto, unfolding(crate::specs::Check::check_area))]
fn check_area(tail: u8, b: &[u8], given: AreaInputs, verdict: bool) -> Answer
    ensures { result ≡ check_area tail b.now given verdict }
{
    answer_at(
        area_rows(tail, b, given, verdict),
        0,
        CodeHeader { bytes: b, at: 0 },
    )
}

// The check of the loader on a card, where zeros follow it. Each area's check names its tail and its verdict
// for `check_area`, which is both.
#[tactic(auto, unfolding(crate::specs::Check::check_card))]
pub fn check_card(b: &[u8], given: AreaInputs) -> Answer
    ensures value { result ≡ check_card b.now given }
    ensures told { told result ≡ told (check_card b.now given) }
{
    check_area(0, b, given, given.card)
}

// The check of the loader in the internal area, where erased bytes follow it.
#[tactic(auto, unfolding(crate::specs::Check::check_internal))]
pub fn check_internal(b: &[u8], given: AreaInputs) -> Answer
    ensures value { result ≡ check_internal b.now given }
    ensures told { told result ≡ told (check_internal b.now given) }
{
    check_area(255, b, given, given.internal)
}

// The code in the checked area, and nothing after a refusal.
pub fn code(b: &[u8], answer: Answer) -> &[u8]
    ensures { result.now ≡ when_accepted answer (code_of b.now) }
{
    accepted_part(b, answer, code_span_at(CodeHeader { bytes: b, at: 0 }))
}

fn digest_rows(b: &[u8]) -> Outcome
    ensures { result ≡ first_failing (digest_rows b.now) }
{
    let no_magic = magic_missing(b);
    step(no_magic, 1, 2)?;
    shape_rows(b)
}

// The digest to be signed of a loader, in either area.
#[tactic(auto, unfolding(crate::specs::Digest::loader_digest))]
pub fn loader_digest(b: &[u8]) -> Digest
    ensures value { result ≡ loader_digest b.now }
    ensures told { outcome.told result ≡ outcome.told (loader_digest b.now) }
{
    signing::answer_at(digest_rows(b), CodeHeader { bytes: b, at: 0 })
}
