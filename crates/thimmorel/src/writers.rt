// The writers of the two headers, for C (specification, 8).
ghost use Rattle.std.specs.Prelude.{◌≡◌, cond, get_or};
ghost use Rattle.writer.specs.Writers.{number_of};
ghost use Rattle.writer.specs.Vendor.{vendor_answer, vendor_output};
ghost use Rattle.writer.specs.Firmware.{firmware_answer, firmware_output};
ghost use Rattle.abi.specs.Headers.{vendor_fits, vendor_of, firmware_fits, firmware_of, written_word};

use abi::headers::{firmware_fits, firmware_of, tell, vendor_fits, vendor_of};
use writer::{write_firmware, write_vendor};

// Writes a vendor header to the start of out.
#[unsafe(no_mangle)]
pub extern "C" fn thimmorel_write_vendor(
    numbers: &[u32; 7],
    keys: &[u8],
    string: &[u8],
    picture: &[u8],
    sig: &[u8; 64],
    out: &mut [u8],
    written: &mut [u32; 1],
) -> u32
    ensures value { result ≡ cond (vendor_fits numbers.now) (number_of (vendor_answer (vendor_of numbers.now) keys.now string.now picture.now out.old)) 28 }
    ensures out_after { out.new ≡ cond (vendor_fits numbers.now) (vendor_output (vendor_of numbers.now) keys.now string.now picture.now sig.now out.old) out.old }
    ensures written_after { written.new ≡ cond (vendor_fits numbers.now) (written_word (vendor_answer (vendor_of numbers.now) keys.now string.now picture.now out.old) written.old) written.old }
{
    if !vendor_fits(*numbers) {
        return 28;
    }
    tell(
        write_vendor(vendor_of(*numbers), keys, string, picture, sig, out),
        written,
    )
}

// Writes a firmware header to the start of out, for code that stands behind a vendor header of v
// bytes.
#[unsafe(no_mangle)]
pub extern "C" fn thimmorel_write_firmware(
    numbers: &[u32; 5],
    code: &[u8],
    sig: &[u8; 64],
    out: &mut [u8],
    written: &mut [u32; 1],
) -> u32
    ensures value { result ≡ cond (firmware_fits numbers.now) (number_of (firmware_answer (get_or numbers.now 0 0) code.now out.old)) 28 }
    ensures out_after { out.new ≡ cond (firmware_fits numbers.now) (firmware_output (get_or numbers.now 0 0) (firmware_of numbers.now) code.now sig.now out.old) out.old }
    ensures written_after { written.new ≡ cond (firmware_fits numbers.now) (written_word (firmware_answer (get_or numbers.now 0 0) code.now out.old) written.old) written.old }
{
    if !firmware_fits(*numbers) {
        return 28;
    }
    tell(
        write_firmware(numbers[0], firmware_of(*numbers), code, sig, out),
        written,
    )
}
