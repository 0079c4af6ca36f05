// SHA-256 of FIPS 180-4.
//
// Every function here is proved, and the crate assumes nothing of its own. The digests equal the
// definition in `specs/Fips180.antt` on any bytes of any length: no public function has a
// `requires`. A block that lies in the lent bytes whole is read straight from them. Only the blocks
// that hold what follows the last whole one, zeros and padding, are copied, 64 bytes at a time.
#![tactic(auto)]

mod blocks;
mod mixing;
pub mod theorems;

ghost use Rattle.std.specs.Prelude.{◌≡◌, ◌++◌, replicate};
ghost use Rattle.sha256.specs.Fips180.{sha256_of};

use blocks::Message;

// The digest of the bytes.
pub fn sha256(bytes: &[u8]) -> [u8; 32]
    ensures { result ≡ sha256_of bytes.now }
{
    Message {
        lent: bytes,
        len: bytes.len(),
    }
    .digest()
}

// The digest of the bytes and so many zeros after them.
pub fn sha256_zero_tailed(bytes: &[u8], zeros: u32) -> [u8; 32]
    ensures { result ≡ sha256_of (bytes.now ++ replicate zeros 0) }
{
    Message {
        lent: bytes,
        len: bytes.len() + zeros as usize,
    }
    .digest()
}
