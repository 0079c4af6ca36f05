// What a digest question answers, as words and bytes.
ghost use Rattle.std.specs.Prelude.{◌≡◌};
ghost use Rattle.header.specs.Outcome.{number_of};
ghost use Rattle.abi.specs.Answers.{answer_words, digest_bytes};

use crate::answer::answer_words;
use signing::Digest;

// The answer's number comes back, the whole answer goes to told, and the digest to digest, which a
// refusal leaves as it was.
pub fn tell(answer: Digest, told: &mut [u32; 3], digest: &mut [u8; 32]) -> u32
    ensures value { result ≡ number_of answer }
    ensures told_after { told.new ≡ answer_words answer }
    ensures digest_after { digest.new ≡ digest_bytes answer digest.old }
{
    let words = answer_words(&answer);
    let bytes = answer.unwrap_or(*digest);
    *told = words;
    *digest = bytes;
    words[0]
}
