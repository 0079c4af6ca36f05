// The writers' numbers from a C caller, and what a writer answers, as words.
ghost use Rattle.std.specs.Prelude.{◌≡◌};
ghost use Rattle.writer.specs.Writers.{number_of};
ghost use Rattle.abi.specs.Headers.{vendor_fits, vendor_of, firmware_fits, version_of, firmware_of, written_word};

use crate::number::{at_most_byte, count, low8, low16};
use image::Version;
use writer::{Firmware, Vendor, Written};

// Whether the numbers of a vendor header fit their fields.
#[tactic(auto, unfolding(crate::specs::Headers::vendor_fits))]
pub fn vendor_fits(w: [u32; 7]) -> bool
    ensures { result ≡ vendor_fits w }
{
    (w[1] <= 255) & ((w[2] <= 255) & ((w[5] <= 65535) & (w[6] <= 255)))
}

// The numbers of a vendor header. An m or n above 255 is read as 255, which no header takes either.
#[tactic(auto, unfolding(crate::specs::Headers::vendor_of))]
pub fn vendor_of(w: [u32; 7]) -> Vendor
    ensures { result ≡ vendor_of w }
{
    Vendor {
        expiry: w[0],
        major: low8(w[1]),
        minor: low8(w[2]),
        m: at_most_byte(w[3]),
        n: at_most_byte(w[4]),
        trust: low16(w[5]),
        mask: low8(w[6]),
    }
}

// Whether the numbers of a firmware header fit their fields.
#[tactic(auto, unfolding(crate::specs::Headers::firmware_fits))]
pub fn firmware_fits(w: [u32; 5]) -> bool
    ensures { result ≡ firmware_fits w }
{
    w[4] <= 255
}

fn version_of(x: u32) -> Version
    ensures { result ≡ version_of x }
{
    let [major, minor, patch, build] = x.to_le_bytes();
    Version {
        major,
        minor,
        patch,
        build,
    }
}

// The numbers of a firmware header, but for v, which is the first word.
#[tactic(auto, unfolding(crate::specs::Headers::firmware_of))]
pub fn firmware_of(w: [u32; 5]) -> Firmware
    ensures { result ≡ firmware_of w }
{
    Firmware {
        expiry: w[1],
        version: version_of(w[2]),
        fix: version_of(w[3]),
        mask: low8(w[4]),
    }
}

fn number_of(answer: Written) -> u32
    ensures { result ≡ number_of answer }
{
    match answer {
        Ok(_) => 0,
        Err(number) => number,
    }
}

fn written_word(answer: Written, old: [u32; 1]) -> [u32; 1]
    ensures { result ≡ written_word answer old }
{
    match answer {
        Ok(len) => count(len),
        Err(_) => old,
    }
}

// The answer's number comes back, and the header's length goes to written, which a refusal leaves as
// it was.
pub fn tell(answer: Written, written: &mut [u32; 1]) -> u32
    ensures value { result ≡ number_of answer }
    ensures written_after { written.new ≡ written_word answer written.old }
{
    let word = written_word(answer, *written);
    *written = word;
    number_of(answer)
}
