// What a check answers, as words: its number, its part and chunk, and what an acceptance tells.
ghost use Rattle.std.specs.Prelude.{◌≡◌};
ghost use Rattle.header.specs.Outcome.{number_of};
ghost use Rattle.abi.specs.Answers.{answer_words, version_word, told_words, image_words};

use header::Refusal;
use image::{Answer, Image, Version};

// Number, part and chunk of any answer that is a refusal or something else.
pub fn answer_words<T>(answer: &Result<T, Refusal>) -> [u32; 3]
    ensures { result ≡ answer_words answer.now }
{
    match answer {
        Ok(_) => [0, 0, 0],
        Err(r) => [r.number, r.part, r.chunk],
    }
}

fn version_word(x: Version) -> u32
    ensures { result ≡ version_word x }
{
    u32::from(x.major)
        + 256 * u32::from(x.minor)
        + 65536 * u32::from(x.patch)
        + 16777216 * u32::from(x.build)
}

#[tactic(auto, unfolding(crate::specs::Answers::told_words))]
fn told_words(i: Image) -> [u32; 4]
    ensures { result ≡ told_words i }
{
    [i.v, i.codelen, version_word(i.version), version_word(i.fix)]
}

fn image_words(answer: Answer, old: [u32; 4]) -> [u32; 4]
    ensures { result ≡ image_words answer old }
{
    match answer {
        Ok(i) => told_words(i),
        Err(_) => old,
    }
}

// The answer's number comes back, the whole answer goes to told, and what an acceptance tells goes to
// image, which a refusal leaves as it was.
pub fn tell(answer: Answer, told: &mut [u32; 3], image: &mut [u32; 4]) -> u32
    ensures value { result ≡ number_of answer }
    ensures told_after { told.new ≡ answer_words answer }
    ensures image_after { image.new ≡ image_words answer image.old }
{
    let words = answer_words(&answer);
    let accepted = image_words(answer, *image);
    *told = words;
    *image = accepted;
    words[0]
}
