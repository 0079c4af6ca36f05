// The C interface: what firmware links. `include/thimmorel.h` declares and documents each call.
//
// An exported function is thin. It calls the proved library, tells the answer by `abi` and
// `abi_session`, and carries the same promise. A struct of the header is an array here.
#![tactic(auto)]

mod check;
mod digests;
mod filling;
mod install;
mod loaders;
mod older;
mod places;
mod plans;
mod writers;

ghost use Rattle.std.specs.Prelude.{◌≡◌};
ghost use Rattle.blake2s.specs.Rfc7693.{blake2s_of};
ghost use Rattle.sha256.specs.Fips180.{sha256_of};

// The BLAKE2s digest of the bytes.
#[unsafe(no_mangle)]
pub extern "C" fn thimmorel_digest(bytes: &[u8], digest: &mut [u8; 32])
    ensures { digest.new ≡ blake2s_of bytes.now }
{
    *digest = blake2s::blake2s(bytes);
}

// The SHA-256 digest of the bytes.
#[unsafe(no_mangle)]
pub extern "C" fn thimmorel_sha256(bytes: &[u8], digest: &mut [u8; 32])
    ensures { digest.new ≡ sha256_of bytes.now }
{
    *digest = sha256::sha256(bytes);
}
