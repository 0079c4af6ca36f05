// The images of the older single-chip model (specification, 17): their checks, as a file and in a
// slot, and the digests to be signed.
//
// Such an image is a V2 header of 1,024 bytes and code. It stands by itself, or behind a legacy header
// of 256 bytes, which is the official pair: a call names the form, Alone or Pair. The digest is SHA-256.
// Each header has three signatures, and three indexes that say by which keys of a key sheet. Any bytes,
// any inputs: an answer, and nothing is written.
#![tactic(auto)]

pub mod digest;
pub mod forms;
mod steps;
mod table;
pub mod theorems;

ghost use Rattle.std.specs.Prelude.{◌≡◌};
ghost use Rattle.image.specs.Answer.{told};
ghost use Rattle.image.specs.Chunks.{code_at};
ghost use Rattle.image.specs.Parts.{when_accepted};
ghost use Rattle.older_model.specs.Check.{form_check};

use forms::{Form, v2_header};
use image::areas::code_span_at;
use image::{Answer, accepted_part, answer_at};
use table::{headers, then_code};

// The signature chip's word on the three signatures of a header, in their order.
#[derive(Clone, Copy)]
pub struct Verdicts {
    pub one: bool,
    pub two: bool,
    pub three: bool,
}

// What the checks are given besides the bytes: the time, the number of keys in the key sheet, and the
// verdicts on each header. A check of a V2 header by itself does not ask those on a legacy header.
#[derive(Clone, Copy)]
pub struct OlderInputs {
    pub time: u32,
    pub keys: u32,
    pub legacy: Verdicts,
    pub v2: Verdicts,
}

// The check where S22 fails as told: a file and a slot differ there alone.
fn check<F: Form>(tail_wrong: bool, b: &[u8], given: OlderInputs) -> Answer
    ensures { result ≡ form_check F.rows_before F.unlinked F.AT tail_wrong b.now given }
{
    let header = v2_header::<F>(b);
    let headers = headers::<F>(b, given);
    let outcome = then_code(headers, tail_wrong, header);
    answer_at(outcome, 0, header)
}

// The check of an image of the form, as a file.
pub fn check_file<F: Form>(b: &[u8], given: OlderInputs) -> Answer
    ensures value { result ≡ F.check_file b.now given }
    ensures told { told result ≡ told (F.check_file b.now given) }
{
    check::<F>(v2_header::<F>(b).bytes_follow(), b, given)
}

// The check of an image of the form in a slot, where erased bytes follow.
pub fn check_slot<F: Form>(b: &[u8], given: OlderInputs) -> Answer
    ensures value { result ≡ F.check_slot b.now given }
    ensures told { told result ≡ told (F.check_slot b.now given) }
{
    check::<F>(v2_header::<F>(b).tail_not(255), b, given)
}

// The code in the checked bytes, and nothing after a refusal.
pub fn code<F: Form>(b: &[u8], answer: Answer) -> &[u8]
    ensures { result.now ≡ when_accepted answer (code_at b.now F.AT) }
{
    accepted_part(b, answer, code_span_at(v2_header::<F>(b)))
}
