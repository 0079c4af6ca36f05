// The checks, for C (specification, 6).
ghost use Rattle.std.specs.Prelude.{◌≡◌};
ghost use Rattle.header.specs.Outcome.{number_of};
ghost use Rattle.image.specs.Check.{check_file, check_slot};
ghost use Rattle.abi.specs.Inputs.{inputs_of};
ghost use Rattle.abi.specs.Answers.{answer_words, image_words};

use abi::answer::tell;
use abi::inputs::inputs_of;
use image::{check_file, check_slot};

// The check of a file.
#[unsafe(no_mangle)]
pub extern "C" fn thimmorel_check_file(
    bytes: &[u8],
    inputs: &[u32; 5],
    answer: &mut [u32; 3],
    image: &mut [u32; 4],
) -> u32
    ensures value { result ≡ number_of (check_file bytes.now (inputs_of inputs.now)) }
    ensures answer_after { answer.new ≡ answer_words (check_file bytes.now (inputs_of inputs.now)) }
    ensures image_after { image.new ≡ image_words (check_file bytes.now (inputs_of inputs.now)) image.old }
{
    tell(check_file(bytes, inputs_of(*inputs)), answer, image)
}

// The check of a slot, which is the boot check.
#[unsafe(no_mangle)]
pub extern "C" fn thimmorel_check_slot(
    bytes: &[u8],
    inputs: &[u32; 5],
    answer: &mut [u32; 3],
    image: &mut [u32; 4],
) -> u32
    ensures value { result ≡ number_of (check_slot bytes.now (inputs_of inputs.now)) }
    ensures answer_after { answer.new ≡ answer_words (check_slot bytes.now (inputs_of inputs.now)) }
    ensures image_after { image.new ≡ image_words (check_slot bytes.now (inputs_of inputs.now)) image.old }
{
    tell(check_slot(bytes, inputs_of(*inputs)), answer, image)
}
