// The parts of an accepted image, the places of signatures (specification, 5.1) and the vendor's
// trust (specification, 7), for C.
ghost use Rattle.std.specs.Prelude.{◌≡◌, length};
ghost use Rattle.header.specs.Layout.{vtrust};
ghost use Rattle.header.specs.Trust.{trust_of};
ghost use Rattle.signing.specs.Places.{vendor_signature, firmware_signature};
ghost use Rattle.abi.specs.Answers.{trust_words};
ghost use Rattle.abi.specs.Places.{part_words, signature_words};

use abi::places::{part_words, signature_words};
use abi::trust::trust_words;
use header::layout::vtrust;
use header::trust::trust_of;
use signing::places::{firmware_signature, vendor_signature};

// Where the string, the picture area and the code of checked bytes stand: start and length of each.
// After a refusal, which number tells, they are all 0. No part reaches past the bytes, whatever they
// are.
#[unsafe(no_mangle)]
pub extern "C" fn thimmorel_find_parts(bytes: &[u8], number: u32, parts: &mut [usize; 6])
    ensures { parts.new ≡ part_words number bytes.now }
{
    *parts = part_words(bytes, number);
}

// What the chip needs for the vendor header.
#[unsafe(no_mangle)]
pub extern "C" fn thimmorel_find_vendor_signature(bytes: &[u8], signature: &mut [usize; 8])
    ensures { signature.new ≡ signature_words (length bytes.now) (vendor_signature bytes.now) }
{
    *signature = signature_words(bytes.len(), vendor_signature(bytes));
}

// What the chip needs for the firmware header.
#[unsafe(no_mangle)]
pub extern "C" fn thimmorel_find_firmware_signature(bytes: &[u8], signature: &mut [usize; 8])
    ensures { signature.new ≡ signature_words (length bytes.now) (firmware_signature bytes.now) }
{
    *signature = signature_words(bytes.len(), firmware_signature(bytes));
}

// The trust reading of a vendor header.
#[unsafe(no_mangle)]
pub extern "C" fn thimmorel_read_trust(bytes: &[u8], trust: &mut [u32; 5])
    ensures { trust.new ≡ trust_words (trust_of (vtrust bytes.now)) }
{
    *trust = trust_words(trust_of(vtrust(bytes)));
}
