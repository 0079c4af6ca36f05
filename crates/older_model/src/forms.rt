// The two forms of an image: the V2 header by itself, and behind a legacy header, which is the official
// pair. They differ in where the V2 header starts, and in what is asked where there is a legacy header.
ghost use Rattle.std.specs.Prelude.{◌≡◌, ℕ, List, [], Bool, false, refl};
ghost use Rattle.code_header.specs.Tests.{bytes_follow_at, tail_not_at};
ghost use Rattle.header.specs.Table.{Row, first_failing};
ghost use Rattle.image.specs.Answer.{Answer};
ghost use Rattle.signing.specs.Digests.{Digest};
ghost use Rattle.older_model.specs.declared.OlderInputs.{OlderInputs};
ghost use Rattle.older_model.specs.Steps.{legacy_len, code_len_other};
ghost use Rattle.older_model.specs.Check.{legacy_shape, legacy_rows, alone_rows, pair_rows, form_check, check_v2_file, check_v2_slot, check_pair_file, check_pair_slot};
ghost use Rattle.older_model.specs.Digest.{form_digest, v2_digest, pair_v2_digest};

use crate::OlderInputs;
use crate::steps::code_len_other;
use crate::table::{legacy_rows, legacy_shape};
use code_header::CodeHeader;
use header::Outcome;

// A form of an image.
pub trait Form {
    // Where the V2 header starts; the rows that a check and a digest question ask in front of it; and
    // whether its codelen is not what a legacy header wants.
    ghost AT: { ℕ };

    ghost rows_before: { List ℕ → OlderInputs → List Row };

    ghost shape_before: { List ℕ → List Row };

    ghost unlinked: { List ℕ → Bool };

    // The form's checks, and its V2 header's digest question.
    ghost check_file: { List ℕ → OlderInputs → Answer };

    ghost check_slot: { List ℕ → OlderInputs → Answer };

    ghost digest: { List ℕ → Digest };

    // Where the V2 header starts.
    const AT: u32;

    // What a check asks in front of the V2 header, behind the key sheet.
    fn rows_before(b: &[u8], given: OlderInputs) -> Outcome
        ensures { result ≡ first_failing (rows_before b.now given) };

    // What the V2 header's digest question asks in front of it.
    fn shape_before(b: &[u8]) -> Outcome
        ensures { result ≡ first_failing (shape_before b.now) };

    // Whether the V2 header's codelen is not what a legacy header wants.
    fn unlinked(b: &[u8]) -> bool
        ensures { result ≡ unlinked b.now };

    // The checks and the digest question are those of the rows.
    ghost file_is: { (b : List ℕ) (given : OlderInputs) → check_file b given ≡ form_check rows_before unlinked AT (bytes_follow_at b AT) b given };

    ghost slot_is: { (b : List ℕ) (given : OlderInputs) → check_slot b given ≡ form_check rows_before unlinked AT (tail_not_at b AT 255) b given };

    ghost digest_is: { (b : List ℕ) → digest b ≡ form_digest shape_before unlinked AT b };
}

// The V2 header by itself. Nothing is asked in front of it.
pub struct Alone;

#[tactic(auto, unfolding(header::specs::Table::first_failing))]
impl Form for Alone {
    ghost AT = { 0 };

    ghost rows_before = { λ b given. [] };

    ghost shape_before = { λ b. [] };

    ghost unlinked = { λ b. false };

    ghost check_file = { check_v2_file };

    ghost check_slot = { check_v2_slot };

    ghost digest = { v2_digest };

    ghost file_is = { λ b given. unfold check_v2_file alone_rows in refl };

    ghost slot_is = { λ b given. unfold check_v2_slot alone_rows in refl };

    ghost digest_is = { λ b. unfold v2_digest in refl };

    const AT: u32 = 0;

    fn rows_before(_b: &[u8], _given: OlderInputs) -> Outcome {
        Ok(())
    }

    fn shape_before(_b: &[u8]) -> Outcome {
        Ok(())
    }

    fn unlinked(_b: &[u8]) -> bool {
        false
    }
}

// The V2 header behind a legacy header.
pub struct Pair;

impl Form for Pair {
    ghost AT = { legacy_len };

    ghost rows_before = { legacy_rows };

    ghost shape_before = { legacy_shape };

    ghost unlinked = { code_len_other };

    ghost check_file = { check_pair_file };

    ghost check_slot = { check_pair_slot };

    ghost digest = { pair_v2_digest };

    ghost file_is = { λ b given. unfold check_pair_file pair_rows in refl };

    ghost slot_is = { λ b given. unfold check_pair_slot pair_rows in refl };

    ghost digest_is = { λ b. unfold pair_v2_digest in refl };

    const AT: u32 = 256;

    fn rows_before(b: &[u8], given: OlderInputs) -> Outcome {
        legacy_rows(b, given)
    }

    fn shape_before(b: &[u8]) -> Outcome {
        legacy_shape(b)
    }

    fn unlinked(b: &[u8]) -> bool {
        code_len_other(b)
    }
}

// The V2 header of an image of this form.
pub fn v2_header<F: Form>(b: &[u8]) -> CodeHeader<'_>
    ensures bytes { result.bytes.now ≡ b.now }
    ensures at { result.at ≡ F.AT }
{
    CodeHeader {
        bytes: b,
        at: F::AT,
    }
}
