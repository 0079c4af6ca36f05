// BLAKE2s of RFC 7693, with no key and a digest of 32 bytes.
//
// Every function here is proved, and the crate assumes nothing of its own. The digests equal the
// definition in `specs/Rfc7693.antt` on any bytes of any length: no public function has a
// `requires`. A block that lies in the lent bytes whole is read straight from them, the last one
// too. Only a block with bytes from elsewhere, zeros or a word given apart, is copied, 64 bytes of
// it.
#![tactic(auto)]

mod blocks;
mod mixing;
pub mod theorems;

ghost use Rattle.std.specs.Prelude.{◌≡◌, ◌++◌};
ghost use Rattle.blake2s.specs.Rfc7693.{blake2s_of};
ghost use Rattle.blake2s.specs.Parts.{zero_tailed};

use blocks::{Message, after_word};

// The digest of the bytes.
pub fn blake2s(bytes: &[u8]) -> [u8; 32]
    ensures { result ≡ blake2s_of bytes.now }
{
    let message = Message {
        first: [0; 64],
        lent: bytes,
        skip: 0,
        len: bytes.len(),
    };
    message.digest()
}

// The digest of the bytes and 65 zeros after them.
pub fn blake2s_zero_tailed(bytes: &[u8]) -> [u8; 32]
    ensures { result ≡ blake2s_of (zero_tailed bytes.now) }
{
    let message = Message {
        first: [0; 64],
        lent: bytes,
        skip: 0,
        len: bytes.len() + 65,
    };
    message.digest()
}

// The digest of four bytes, the lent ones, and 65 zeros after them.
pub fn blake2s_word_apart(first: [u8; 4], bytes: &[u8]) -> [u8; 32]
    ensures { result ≡ blake2s_of (first ++ zero_tailed bytes.now) }
{
    let message = Message {
        first: after_word(first, bytes),
        lent: bytes,
        skip: 4,
        len: bytes.len() + 69,
    };
    message.digest()
}
