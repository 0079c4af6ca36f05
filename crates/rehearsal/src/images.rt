// The images of the rehearsal: a vendor header of 512 bytes, a firmware header of 1,024 and code, made by
// the writers. The newer one has four bytes of code, and the older one as many as fill the slot. The chip's
// verdicts are inputs, so any keys and signatures serve. What a writer answers is not looked at: the check
// of the image tells.
ghost use Rattle.std.specs.Prelude.{◌≤◌};

use image::Version;
use writer::{Firmware, Vendor, write_firmware, write_vendor};

// The lengths of the slot, of its pages and of the newer image.
pub const SLOT_LEN: usize = 65536;

pub const PAGE_LEN: usize = 4096;

pub const FILE_LEN: usize = 1540;

// The lengths of the vendor header, and of both headers.
const VENDOR_LEN: usize = 512;

const HEADERS_LEN: usize = 1536;

// The vendor's two keys both sign firmware, and the first two of the signer's own keys the vendor.
const VENDOR: Vendor = Vendor {
    expiry: 0,
    major: 1,
    minor: 0,
    m: 2,
    n: 2,
    trust: 65535,
    mask: 3,
};

// The image of the version MAJOR.0.0, which is its fix version too. Each byte of its code is the major
// version.
pub fn image_of<const LEN: usize>(major: u8) -> [u8; LEN]
    requires { HEADERS_LEN ≤ LEN }
{
    let version = Version {
        major,
        minor: 0,
        patch: 0,
        build: 0,
    };
    let firmware = Firmware {
        expiry: 0,
        version,
        fix: version,
        mask: 3,
    };
    let keys = [7; 64];
    let sig = [9; 64];
    let mut image = [major; LEN];
    let (headers, code) = image.split_at_mut(HEADERS_LEN);
    let _ = write_vendor(VENDOR, &keys, b"Thimmorel", b"", &sig, headers);
    let firmware_header = &mut headers[VENDOR_LEN..];
    let _ = write_firmware(VENDOR_LEN as u32, firmware, code, &sig, firmware_header);
    image
}
