// The groups of steps, each answered by its first failing row.
ghost use Rattle.std.specs.Prelude.{◌≡◌, [], ◌∷◌};
ghost use Rattle.header.specs.Table.{refusal, row, first_failing, vendor_shape, vendor_policy, firmware_shape, firmware_policy, header_rows, extent_rows_at, extent_rows};

use crate::layout::firmware_header;
use crate::steps::{
    code_len_wrong, firmware_bytes_not_zero, firmware_expired, firmware_header_cut,
    firmware_len_wrong, firmware_magic_missing, firmware_mask_wrong, first_chunk_has_no_room,
    policy_impossible, shorter_than_any_header, string_leaves_no_room, vendor_bytes_not_zero,
    vendor_expired, vendor_header_cut, vendor_keys_impossible, vendor_len_impossible,
    vendor_mask_wrong,
};
use crate::{Inputs, Outcome, Refusal};
use code_header::CodeHeader;

// One row: where the step fails, its refusal, which names no chunk.
pub fn step(fails: bool, number: u32, part: u32) -> Outcome
    ensures { result ≡ first_failing (row fails (refusal number part) ∷ []) }
{
    if fails {
        return Err(Refusal {
            number,
            part,
            chunk: 0,
        });
    }
    Ok(())
}

// S3 to S8.
pub fn vendor_shape(b: &[u8]) -> Outcome
    ensures { result ≡ first_failing (vendor_shape b.now) }
{
    step(shorter_than_any_header(b), 2, 1)?;
    step(vendor_len_impossible(b), 3, 1)?;
    step(vendor_header_cut(b), 2, 1)?;
    step(vendor_keys_impossible(b), 4, 1)?;
    step(string_leaves_no_room(b), 5, 1)?;
    step(vendor_bytes_not_zero(b), 6, 1)
}

// S9 to S11.
pub fn vendor_policy(b: &[u8], given: Inputs) -> Outcome
    ensures { result ≡ first_failing (vendor_policy b.now given) }
{
    step(vendor_expired(b, given.time), 7, 1)?;
    step(vendor_mask_wrong(b, given.m, given.n), 8, 1)?;
    step(!given.vendor, 9, 1)
}

// S12 to S17.
pub fn firmware_shape(b: &[u8]) -> Outcome
    ensures { result ≡ first_failing (firmware_shape b.now) }
{
    step(firmware_header_cut(b), 2, 2)?;
    step(firmware_magic_missing(b), 10, 2)?;
    step(firmware_len_wrong(b), 11, 2)?;
    step(first_chunk_has_no_room(b), 17, 2)?;
    step(code_len_wrong(b), 12, 2)?;
    step(firmware_bytes_not_zero(b), 6, 2)
}

// S18 to S20.
pub fn firmware_policy(b: &[u8], given: Inputs) -> Outcome
    ensures { result ≡ first_failing (firmware_policy b.now given) }
{
    step(firmware_expired(b, given.time), 7, 2)?;
    step(firmware_mask_wrong(b), 8, 2)?;
    step(!given.firmware, 9, 2)
}

// S1 to S20. Whether S1 fails is told by the caller, who may have the first word apart.
pub fn header_rows(magic_missing: bool, b: &[u8], given: Inputs) -> Outcome
    ensures { result ≡ first_failing (header_rows magic_missing b.now given) }
{
    step(magic_missing, 1, 1)?;
    step(policy_impossible(given.m, given.n), 16, 0)?;
    vendor_shape(b)?;
    vendor_policy(b, given)?;
    firmware_shape(b)?;
    firmware_policy(b, given)
}

// S21 and S22, of the code behind a header that starts at an offset. Whether S22 fails is told by the
// caller: a file and a slot differ there alone.
pub fn extent_rows_at(tail_wrong: bool, header: CodeHeader<'_>) -> Outcome
    ensures { result ≡ first_failing (extent_rows_at tail_wrong header.entry.bytes.now header.entry.at) }
{
    step(header.code_cut(), 2, 3)?;
    step(tail_wrong, 13, 3)
}

// Of an image.
pub fn extent_rows(tail_wrong: bool, b: &[u8]) -> Outcome
    ensures { result ≡ first_failing (extent_rows tail_wrong b.now) }
{
    extent_rows_at(tail_wrong, firmware_header(b))
}
