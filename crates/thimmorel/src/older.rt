// The older model, for C (specification, 17): its checks, its digest questions, and where the code of
// an image stands.
ghost use Rattle.std.specs.Prelude.{◌≡◌};
ghost use Rattle.header.specs.Outcome.{number_of};
ghost use Rattle.older_model.specs.Steps.{legacy_len};
ghost use Rattle.older_model.specs.Check.{check_v2_file, check_v2_slot, check_pair_file, check_pair_slot};
ghost use Rattle.older_model.specs.Digest.{v2_digest, pair_v2_digest, pair_legacy_digest};
ghost use Rattle.abi.specs.Answers.{answer_words, image_words, digest_bytes};
ghost use Rattle.abi.specs.Older.{older_inputs_of, code_words};

use abi::answer::tell;
use abi::digest::tell as tell_digest;
use abi::older::{code_words, older_inputs_of};
use older_model::digest::{pair_legacy_digest, v2_digest};
use older_model::forms::{Alone, Pair};
use older_model::{check_file, check_slot};

// The check of a V2 header and code, as a file.
#[unsafe(no_mangle)]
pub extern "C" fn thimmorel_check_v2_file(
    bytes: &[u8],
    inputs: &[u32; 8],
    answer: &mut [u32; 3],
    image: &mut [u32; 4],
) -> u32
    ensures value { result ≡ number_of (check_v2_file bytes.now (older_inputs_of inputs.now)) }
    ensures answer_after { answer.new ≡ answer_words (check_v2_file bytes.now (older_inputs_of inputs.now)) }
    ensures image_after { image.new ≡ image_words (check_v2_file bytes.now (older_inputs_of inputs.now)) image.old }
{
    tell(
        check_file::<Alone>(bytes, older_inputs_of(*inputs)),
        answer,
        image,
    )
}

// The check of a V2 header and code in a slot.
#[unsafe(no_mangle)]
pub extern "C" fn thimmorel_check_v2_slot(
    bytes: &[u8],
    inputs: &[u32; 8],
    answer: &mut [u32; 3],
    image: &mut [u32; 4],
) -> u32
    ensures value { result ≡ number_of (check_v2_slot bytes.now (older_inputs_of inputs.now)) }
    ensures answer_after { answer.new ≡ answer_words (check_v2_slot bytes.now (older_inputs_of inputs.now)) }
    ensures image_after { image.new ≡ image_words (check_v2_slot bytes.now (older_inputs_of inputs.now)) image.old }
{
    tell(
        check_slot::<Alone>(bytes, older_inputs_of(*inputs)),
        answer,
        image,
    )
}

// The check of the pair, as a file.
#[unsafe(no_mangle)]
pub extern "C" fn thimmorel_check_pair_file(
    bytes: &[u8],
    inputs: &[u32; 8],
    answer: &mut [u32; 3],
    image: &mut [u32; 4],
) -> u32
    ensures value { result ≡ number_of (check_pair_file bytes.now (older_inputs_of inputs.now)) }
    ensures answer_after { answer.new ≡ answer_words (check_pair_file bytes.now (older_inputs_of inputs.now)) }
    ensures image_after { image.new ≡ image_words (check_pair_file bytes.now (older_inputs_of inputs.now)) image.old }
{
    tell(
        check_file::<Pair>(bytes, older_inputs_of(*inputs)),
        answer,
        image,
    )
}

// The check of the pair in a slot.
#[unsafe(no_mangle)]
pub extern "C" fn thimmorel_check_pair_slot(
    bytes: &[u8],
    inputs: &[u32; 8],
    answer: &mut [u32; 3],
    image: &mut [u32; 4],
) -> u32
    ensures value { result ≡ number_of (check_pair_slot bytes.now (older_inputs_of inputs.now)) }
    ensures answer_after { answer.new ≡ answer_words (check_pair_slot bytes.now (older_inputs_of inputs.now)) }
    ensures image_after { image.new ≡ image_words (check_pair_slot bytes.now (older_inputs_of inputs.now)) image.old }
{
    tell(
        check_slot::<Pair>(bytes, older_inputs_of(*inputs)),
        answer,
        image,
    )
}

// The digest to be signed of a V2 header that stands by itself.
#[unsafe(no_mangle)]
pub extern "C" fn thimmorel_v2_digest(
    bytes: &[u8],
    answer: &mut [u32; 3],
    digest: &mut [u8; 32],
) -> u32
    ensures value { result ≡ number_of (v2_digest bytes.now) }
    ensures answer_after { answer.new ≡ answer_words (v2_digest bytes.now) }
    ensures digest_after { digest.new ≡ digest_bytes (v2_digest bytes.now) digest.old }
{
    tell_digest(v2_digest::<Alone>(bytes), answer, digest)
}

// The digest to be signed of the V2 header in the pair.
#[unsafe(no_mangle)]
pub extern "C" fn thimmorel_pair_v2_digest(
    bytes: &[u8],
    answer: &mut [u32; 3],
    digest: &mut [u8; 32],
) -> u32
    ensures value { result ≡ number_of (pair_v2_digest bytes.now) }
    ensures answer_after { answer.new ≡ answer_words (pair_v2_digest bytes.now) }
    ensures digest_after { digest.new ≡ digest_bytes (pair_v2_digest bytes.now) digest.old }
{
    tell_digest(v2_digest::<Pair>(bytes), answer, digest)
}

// The digest to be signed of the legacy header in the pair.
#[unsafe(no_mangle)]
pub extern "C" fn thimmorel_pair_legacy_digest(
    bytes: &[u8],
    answer: &mut [u32; 3],
    digest: &mut [u8; 32],
) -> u32
    ensures value { result ≡ number_of (pair_legacy_digest bytes.now) }
    ensures answer_after { answer.new ≡ answer_words (pair_legacy_digest bytes.now) }
    ensures digest_after { digest.new ≡ digest_bytes (pair_legacy_digest bytes.now) digest.old }
{
    tell_digest(pair_legacy_digest(bytes), answer, digest)
}

// Where the code behind a V2 header that stands by itself stands in checked bytes: start and length. After a refusal, which
// number tells, both are 0. It does not reach past the bytes, whatever they are.
#[unsafe(no_mangle)]
pub extern "C" fn thimmorel_find_v2_code(bytes: &[u8], number: u32, code: &mut [usize; 2])
    ensures { code.new ≡ code_words 0 number bytes.now }
{
    *code = code_words(bytes, 0, number);
}

// Where the code of the pair stands in checked bytes: start and length. After a refusal, which
// number tells, both are 0. It does not reach past the bytes, whatever they are.
#[unsafe(no_mangle)]
pub extern "C" fn thimmorel_find_pair_code(bytes: &[u8], number: u32, code: &mut [usize; 2])
    ensures { code.new ≡ code_words legacy_len number bytes.now }
{
    *code = code_words(bytes, 256, number);
}
