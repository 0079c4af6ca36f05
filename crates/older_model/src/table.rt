// The groups of steps, each answered by its first failing row.
ghost use Rattle.std.specs.Prelude.{◌≡◌};
ghost use Rattle.header.specs.Table.{first_failing, or_else};
ghost use Rattle.older_model.specs.Check.{legacy_shape, legacy_policy, legacy_rows, v2_shape, v2_policy, code_rows, v2_headers, form_headers};

use crate::OlderInputs;
use crate::forms::{Form, v2_header};
use crate::steps::{
    indexes_wrong_at, legacy_bytes_not_zero, legacy_code_len_wrong, legacy_cut,
    legacy_magic_missing, sheet_impossible, v2_bytes_not_zero, v2_code_len_wrong, verdict_missing,
};
use code_header::CodeHeader;
use header::Outcome;
use header::table::{extent_rows_at, step};
use image::chunks::{Sha256, chunk_rows_at};

// The legacy header through its zero bytes.
pub fn legacy_shape(b: &[u8]) -> Outcome
    ensures { result ≡ first_failing (legacy_shape b.now) }
{
    step(legacy_magic_missing(b), 1, 1)?;
    step(legacy_cut(b), 2, 1)?;
    step(legacy_code_len_wrong(b), 12, 1)?;
    step(legacy_bytes_not_zero(b), 6, 1)
}

// Its indexes and verdicts.
fn legacy_policy(b: &[u8], given: OlderInputs) -> Outcome
    ensures { result ≡ first_failing (legacy_policy b.now given) }
{
    step(indexes_wrong_at(b, 8, given.keys), 8, 1)?;
    step(verdict_missing(given.legacy), 9, 1)
}

// The V2 header through its zero bytes. Its codelen is also wrong where other says so.
pub fn v2_shape(other: bool, header: CodeHeader<'_>) -> Outcome
    ensures { result ≡ first_failing (v2_shape other header.entry.bytes.now header.entry.at) }
{
    step(header.magic_missing(b"TRZF"), 10, 2)?;
    step(header.is_cut(), 2, 2)?;
    step(header.hdr_len_wrong(), 11, 2)?;
    step(v2_code_len_wrong(other, header), 12, 2)?;
    step(v2_bytes_not_zero(header), 6, 2)
}

// Its expiry, indexes and verdicts.
fn v2_policy(header: CodeHeader<'_>, given: OlderInputs) -> Outcome
    ensures { result ≡ first_failing (v2_policy header.entry.bytes.now header.entry.at given) }
{
    let indexes = header.at as usize + 0x2E0;
    step(header.expired(given.time), 7, 2)?;
    step(indexes_wrong_at(header.bytes, indexes, given.keys), 8, 2)?;
    step(verdict_missing(given.v2), 9, 2)
}

// S21 to S23. Whether S22 fails is told by the caller.
fn code_rows(tail_wrong: bool, header: CodeHeader<'_>) -> Outcome
    ensures { result ≡ first_failing (code_rows tail_wrong header.entry.bytes.now header.entry.at) }
{
    extent_rows_at(tail_wrong, header)?;
    chunk_rows_at::<Sha256>(header, 129792)
}

// The V2 header, all of its steps.
fn v2_headers(other: bool, header: CodeHeader<'_>, given: OlderInputs) -> Outcome
    ensures { result ≡ first_failing (v2_headers other header.entry.bytes.now header.entry.at given) }
{
    v2_shape(other, header)?;
    v2_policy(header, given)
}

// The legacy header of the pair, all of its steps.
pub fn legacy_rows(b: &[u8], given: OlderInputs) -> Outcome
    ensures { result ≡ first_failing (legacy_rows b.now given) }
{
    legacy_shape(b)?;
    legacy_policy(b, given)
}

// The headers of an image of the form. The key sheet comes before all else. Its calls are to be off the
// stack when the code is digested, so it stays a call of its own.
#[inline(never)]
pub fn headers<F: Form>(b: &[u8], given: OlderInputs) -> Outcome
    ensures { result ≡ first_failing (form_headers F.rows_before F.unlinked F.AT b.now given) }
{
    step(sheet_impossible(given.keys), 16, 0)?;
    F::rows_before(b, given)?;
    v2_headers(F::unlinked(b), v2_header::<F>(b), given)
}

// The outcome of the headers, and where they pass that of the code. The headers are done by then, so
// that their calls are off the stack when the code is digested.
pub fn then_code(headers: Outcome, tail_wrong: bool, header: CodeHeader<'_>) -> Outcome
    ensures { result ≡ or_else headers (first_failing (code_rows tail_wrong header.entry.bytes.now header.entry.at)) }
{
    headers?;
    code_rows(tail_wrong, header)
}
