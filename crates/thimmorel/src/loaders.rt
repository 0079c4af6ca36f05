// The loader, for C (specification, 16): its checks, its digest question and the choice.
ghost use Rattle.std.specs.Prelude.{◌≡◌};
ghost use Rattle.loader.specs.Check.{check_card, check_internal};
ghost use Rattle.loader.specs.Digest.{loader_digest};
ghost use Rattle.header.specs.Outcome.{number_of};
ghost use Rattle.loader.specs.Choice.{choose};
ghost use Rattle.abi.specs.Answers.{answer_words, image_words, digest_bytes};
ghost use Rattle.abi.specs.Loaders.{area_inputs_of, choice_words, loader_words};

use abi::answer::tell;
use abi::digest::tell as tell_digest;
use abi::loaders::{area_inputs_of, loader_words, tell_choice};
use loader::choice::choose;
use loader::{check_card, check_internal, loader_digest};

// The check of the loader on a card.
#[unsafe(no_mangle)]
pub extern "C" fn thimmorel_check_card(
    bytes: &[u8],
    inputs: &[u32; 5],
    answer: &mut [u32; 3],
    image: &mut [u32; 4],
) -> u32
    ensures value { result ≡ number_of (check_card bytes.now (area_inputs_of inputs.now)) }
    ensures answer_after { answer.new ≡ answer_words (check_card bytes.now (area_inputs_of inputs.now)) }
    ensures image_after { image.new ≡ image_words (check_card bytes.now (area_inputs_of inputs.now)) image.old }
{
    tell(check_card(bytes, area_inputs_of(*inputs)), answer, image)
}

// The check of the loader in the internal area.
#[unsafe(no_mangle)]
pub extern "C" fn thimmorel_check_internal(
    bytes: &[u8],
    inputs: &[u32; 5],
    answer: &mut [u32; 3],
    image: &mut [u32; 4],
) -> u32
    ensures value { result ≡ number_of (check_internal bytes.now (area_inputs_of inputs.now)) }
    ensures answer_after { answer.new ≡ answer_words (check_internal bytes.now (area_inputs_of inputs.now)) }
    ensures image_after { image.new ≡ image_words (check_internal bytes.now (area_inputs_of inputs.now)) image.old }
{
    tell(
        check_internal(bytes, area_inputs_of(*inputs)),
        answer,
        image,
    )
}

// The digest to be signed of a loader.
#[unsafe(no_mangle)]
pub extern "C" fn thimmorel_loader_digest(
    bytes: &[u8],
    answer: &mut [u32; 3],
    digest: &mut [u8; 32],
) -> u32
    ensures value { result ≡ number_of (loader_digest bytes.now) }
    ensures answer_after { answer.new ≡ answer_words (loader_digest bytes.now) }
    ensures digest_after { digest.new ≡ digest_bytes (loader_digest bytes.now) digest.old }
{
    tell_digest(loader_digest(bytes), answer, digest)
}

// The loader to run: whether there is one, and where it stands.
#[unsafe(no_mangle)]
pub extern "C" fn thimmorel_choose_loader<'a>(
    card: &'a [u8],
    internal: &'a [u8],
    inputs: &[u32; 5],
    answer: &mut [u32; 3],
    loader: &mut [usize; 3],
) -> u32
    ensures value { result ≡ number_of (choose card.now internal.now (area_inputs_of inputs.now)) }
    ensures answer_after { answer.new ≡ choice_words (choose card.now internal.now (area_inputs_of inputs.now)) }
    ensures loader_after { loader.new ≡ loader_words (choose card.now internal.now (area_inputs_of inputs.now)) card.now internal.now }
{
    let choice = choose(card, internal, area_inputs_of(*inputs));
    let place = loader_words(choice, card, internal);
    *loader = place;
    tell_choice(choice, answer)
}
