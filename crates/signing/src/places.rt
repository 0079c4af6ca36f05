// What a signature chip needs of the bytes beside a digest to be signed (specification, 5.1).
//
// The places are told where the header's digest question is answered, and are empty after a refusal.
ghost use Rattle.std.specs.Prelude.{◌≡◌, ◌++◌, drop};
ghost use Rattle.signing.specs.Places.{no_signature, vendor_places, firmware_places, when_answered, vendor_signature, firmware_signature};

use crate::{firmware_rows, vendor_rows};
use header::Outcome;
use header::layout::{key_count, signers_needed, vendor_len};
use header::steps::vendor_magic_missing;
use octets::{Span, starts_with};

// Where the sigmask and the signature of a header stand; and for the firmware header, where the
// vendor's keys stand, and that exactly m of these n must sign. For the vendor header there are no keys
// here, and m and n are 0: its keys and policy are the caller's own.
#[derive(Clone, Copy, PartialEq, Eq, Debug)]
pub struct Signature {
    pub mask: Span,
    pub sig: Span,
    pub keys: Span,
    pub m: u32,
    pub n: u32,
}

// No place, and no keys.
pub fn no_signature() -> Signature
    ensures { result ≡ no_signature }
{
    let none = Span { from: 0, to: 0 };
    Signature {
        mask: none,
        sig: none,
        keys: none,
        m: 0,
        n: 0,
    }
}

#[tactic(auto, unfolding(crate::specs::Places::vendor_places))]
fn vendor_places(b: &[u8]) -> Signature
    ensures { result ≡ vendor_places b.now }
{
    let at = (vendor_len(b) as usize).saturating_sub(65);
    Signature {
        mask: Span {
            from: at,
            to: at + 1,
        },
        sig: Span {
            from: at + 1,
            to: at + 1 + 64,
        },
        keys: Span { from: 0, to: 0 },
        m: 0,
        n: 0,
    }
}

#[tactic(auto, unfolding(crate::specs::Places::firmware_places))]
fn firmware_places(b: &[u8]) -> Signature
    ensures { result ≡ firmware_places b.now }
{
    let v = vendor_len(b) as usize;
    let n = key_count(b);
    Signature {
        mask: Span {
            from: v + 959,
            to: v + 959 + 1,
        },
        sig: Span {
            from: v + 960,
            to: v + 960 + 64,
        },
        keys: Span {
            from: 32,
            to: 32 + 32 * usize::from(n),
        },
        m: u32::from(signers_needed(b)),
        n: u32::from(n),
    }
}

fn when_answered(outcome: Outcome, places: Signature) -> Signature
    ensures { result ≡ when_answered outcome places }
{
    match outcome {
        Err(_) => no_signature(),
        Ok(()) => places,
    }
}

// What the chip needs for the vendor header.
pub fn vendor_signature(b: &[u8]) -> Signature
    ensures { result ≡ vendor_signature b.now }
{
    when_answered(vendor_rows(vendor_magic_missing(b), b), vendor_places(b))
}

// What the chip needs for the firmware header.
pub fn firmware_signature(b: &[u8]) -> Signature
    ensures { result ≡ firmware_signature b.now }
{
    when_answered(
        firmware_rows(vendor_magic_missing(b), b),
        firmware_places(b),
    )
}

// The vendor header's, where the first word is given apart: of first, and then the bytes from 4 on. Each of
// the four calls names its rows and its places for `when_answered`, which is all that they share.
pub fn vendor_signature_word_apart(first: [u8; 4], b: &[u8]) -> Signature
    ensures { result ≡ vendor_signature (first ++ drop 4 b.now) }
{
    when_answered(
        vendor_rows(!starts_with(&first, b"TRZV"), b),
        vendor_places(b),
    )
}

// The firmware header's, where the first word is given apart.
pub fn firmware_signature_word_apart(first: [u8; 4], b: &[u8]) -> Signature
    ensures { result ≡ firmware_signature (first ++ drop 4 b.now) }
{
    when_answered(
        firmware_rows(!starts_with(&first, b"TRZV"), b),
        firmware_places(b),
    )
}
