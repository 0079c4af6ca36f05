// The digest questions, for C (specification, 5).
ghost use Rattle.std.specs.Prelude.{◌≡◌};
ghost use Rattle.header.specs.Outcome.{number_of};
ghost use Rattle.signing.specs.Digests.{vendor_digest, firmware_digest};
ghost use Rattle.abi.specs.Answers.{answer_words, digest_bytes};

use abi::digest::tell;
use signing::{firmware_digest, vendor_digest};

// The digest to be signed of the vendor header.
#[unsafe(no_mangle)]
pub extern "C" fn thimmorel_vendor_digest(
    bytes: &[u8],
    answer: &mut [u32; 3],
    digest: &mut [u8; 32],
) -> u32
    ensures value { result ≡ number_of (vendor_digest bytes.now) }
    ensures answer_after { answer.new ≡ answer_words (vendor_digest bytes.now) }
    ensures digest_after { digest.new ≡ digest_bytes (vendor_digest bytes.now) digest.old }
{
    tell(vendor_digest(bytes), answer, digest)
}

// The digest to be signed of the firmware header.
#[unsafe(no_mangle)]
pub extern "C" fn thimmorel_firmware_digest(
    bytes: &[u8],
    answer: &mut [u32; 3],
    digest: &mut [u8; 32],
) -> u32
    ensures value { result ≡ number_of (firmware_digest bytes.now) }
    ensures answer_after { answer.new ≡ answer_words (firmware_digest bytes.now) }
    ensures digest_after { digest.new ≡ digest_bytes (firmware_digest bytes.now) digest.old }
{
    tell(firmware_digest(bytes), answer, digest)
}
