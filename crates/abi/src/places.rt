// Where the parts of an image and its signatures stand in the caller's bytes: start and length of
// each.
ghost use Rattle.std.specs.Prelude.{◌≡◌, min};
ghost use Rattle.abi.specs.Places.{placed, part_words, signature_words};

use image::areas::{code_span, picture_span, string_span};
use octets::Span;
use signing::places::Signature;

// Where a span stands in n bytes: its start and its length, neither past the bytes.
pub fn placed(n: usize, span: Span) -> [usize; 2]
    ensures { result ≡ placed n span }
{
    let start = span.from.min(n);
    let end = span.to.min(n);
    [start, end.saturating_sub(start)]
}

// The string, the picture area and the code of checked bytes, or zeros after a refusal, which number
// tells.
pub fn part_words(bytes: &[u8], number: u32) -> [usize; 6]
    ensures { result ≡ part_words number bytes.now }
{
    if number != 0 {
        return [0; 6];
    }
    let [string, string_len] = placed(bytes.len(), string_span(bytes));
    let [picture, picture_len] = placed(bytes.len(), picture_span(bytes));
    let [code, code_len] = placed(bytes.len(), code_span(bytes));
    [string, string_len, picture, picture_len, code, code_len]
}

// The sigmask, the signature and the keys in n bytes, and m of n.
#[tactic(auto, unfolding(crate::specs::Places::signature_words))]
pub fn signature_words(n: usize, s: Signature) -> [usize; 8]
    ensures { result ≡ signature_words n s }
{
    let [mask, mask_len] = placed(n, s.mask);
    let [sig, sig_len] = placed(n, s.sig);
    let [keys, keys_len] = placed(n, s.keys);
    [
        mask,
        mask_len,
        sig,
        sig_len,
        keys,
        keys_len,
        s.m as usize,
        s.n as usize,
    ]
}
