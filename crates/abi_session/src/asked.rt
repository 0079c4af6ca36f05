// What is asked of a session before its close: both digests, and what the chip needs beside them.
ghost use Rattle.std.specs.Prelude.{◌≡◌, ◌++◌};
ghost use Rattle.abi_session.specs.Answers.{asked_words, asked_digests, signatures_words};

use abi::answer::answer_words;
use abi::places::signature_words;
use octets::put::put_bytes;
use sessions::{Asked, Signatures};

// The answers of both questions.
pub fn asked_words(asked: Asked) -> [u32; 6]
    ensures { result ≡ asked_words asked }
{
    let v = answer_words(&asked.vendor);
    let f = answer_words(&asked.firmware);
    [v[0], v[1], v[2], f[0], f[1], f[2]]
}

// One digest behind the other.
fn put_digests(vendor: [u8; 32], firmware: [u8; 32], digests: &mut [u8; 64])
    ensures { digests.new ≡ vendor ++ firmware }
{
    let next = put_bytes(digests, 0, &vendor);
    put_bytes(digests, next, &firmware);
}

// The digests of both questions go to digests, and zeros in place of one that is refused.
pub fn tell_digests(asked: Asked, digests: &mut [u8; 64])
    ensures { digests.new ≡ asked_digests asked }
{
    let vendor = asked.vendor.unwrap_or([0; 32]);
    let firmware = asked.firmware.unwrap_or([0; 32]);
    put_digests(vendor, firmware, digests);
}

// What the chip needs for each header, as places in n bytes.
#[tactic(auto, unfolding(abi::specs::Places::signature_words))]
pub fn signatures_words(n: usize, s: Signatures) -> [usize; 16]
    ensures { result ≡ signatures_words n s }
{
    let v = signature_words(n, s.vendor);
    let f = signature_words(n, s.firmware);
    [
        v[0], v[1], v[2], v[3], v[4], v[5], v[6], v[7], f[0], f[1], f[2], f[3], f[4], f[5], f[6],
        f[7],
    ]
}
