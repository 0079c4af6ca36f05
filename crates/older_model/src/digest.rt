// The digests to be signed of the older model (specification, 17.3). Asking for one is a digest
// question. It asks for the shape of the headers alone, and the legacy header's for the bytes that it
// signs. After a refusal there is no digest.
ghost use Rattle.std.specs.Prelude.{◌≡◌, [], ◌∷◌, ◌++◌, ◌+◌};
ghost use Rattle.sha256.specs.Fips180.{sha256_of};
ghost use Rattle.header.specs.Outcome.{told};
ghost use Rattle.header.specs.Table.{step, first_failing};
ghost use Rattle.older_model.specs.Steps.{legacy_len, legacy_code_len};
ghost use Rattle.older_model.specs.Check.{legacy_shape};
ghost use Rattle.older_model.specs.Digest.{zeroed_v2, form_shape, signed_legacy, signed_legacy_cut, pair_legacy_digest};

use crate::forms::{Form, v2_header};
use crate::steps::legacy_code_len;
use crate::table::{legacy_shape, v2_shape};
use code_header::CodeHeader;
use header::Outcome;
use header::table::step;
use octets::part;
use sha256::{sha256, sha256_zero_tailed};
use signing::Digest;

// The digest of the V2 header, with zeros from its signatures on. In a header that passed its steps
// there are zeros behind the indexes.
fn v2_header_digest(header: CodeHeader<'_>) -> [u8; 32]
    ensures { result ≡ sha256_of (zeroed_v2 header.entry.bytes.now header.entry.at) }
{
    let from = header.at as usize;
    sha256_zero_tailed(part(header.bytes, from, from + 0x220), 480)
}

// The headers through their zero bytes.
fn shape<F: Form>(b: &[u8]) -> Outcome
    ensures { result ≡ first_failing (form_shape F.shape_before F.unlinked F.AT b.now) }
{
    F::shape_before(b)?;
    v2_shape(F::unlinked(b), v2_header::<F>(b))
}

// The digest to be signed of the V2 header of an image of the form.
pub fn v2_digest<F: Form>(b: &[u8]) -> Digest
    ensures value { result ≡ F.digest b.now }
    ensures told { told result ≡ told (F.digest b.now) }
{
    shape::<F>(b)?;
    Ok(v2_header_digest(v2_header::<F>(b)))
}

// Where the bytes that a legacy header signs end.
fn signed_end(b: &[u8]) -> usize
    ensures { result ≡ legacy_len + legacy_code_len b.now }
{
    256 + legacy_code_len(b) as usize
}

// Whether fewer bytes are there.
#[tactic(auto, unfolding(crate::specs::Digest::signed_legacy_cut))]
fn signed_cut(b: &[u8]) -> bool
    ensures { result ≡ signed_legacy_cut b.now }
{
    b.len() < signed_end(b)
}

// What the legacy header's question asks: the header's shape, and the bytes that it signs.
fn signed_rows(b: &[u8]) -> Outcome
    ensures { result ≡ first_failing (legacy_shape b.now ++ (step (signed_legacy_cut b.now) 2 3 ∷ [])) }
{
    legacy_shape(b)?;
    step(signed_cut(b), 2, 3)
}

// The digest of these bytes.
#[tactic(auto, unfolding(crate::specs::Digest::signed_legacy))]
fn signed_digest(b: &[u8]) -> [u8; 32]
    ensures { result ≡ sha256_of (signed_legacy b.now) }
{
    sha256(part(b, 256, signed_end(b)))
}

// The digest to be signed of the legacy header: that of the codelen bytes behind it.
#[tactic(auto, unfolding(crate::specs::Digest::pair_legacy_digest))]
pub fn pair_legacy_digest(b: &[u8]) -> Digest
    ensures value { result ≡ pair_legacy_digest b.now }
    ensures told { told result ≡ told (pair_legacy_digest b.now) }
{
    signed_rows(b)?;
    Ok(signed_digest(b))
}
