// Where fields stand, and what stands there.
ghost use Rattle.std.specs.Prelude.{◌≡◌};
ghost use Rattle.code_header.specs.Layout.{magic_at, hdr_len_at, expiry_at, code_len_at, sigmask_at, code_start_at, code_end_at};

use crate::CodeHeader;
use octets::{byte_at, part, u32_at};

impl<'a> CodeHeader<'a> {
    pub fn magic(self) -> &'a [u8]
        ensures { result.now ≡ magic_at self.entry.bytes.now self.entry.at }
    {
        let from = self.at as usize;
        part(self.bytes, from, from + 4)
    }

    pub fn hdr_len(self) -> u32
        ensures { result ≡ hdr_len_at self.entry.bytes.now self.entry.at }
    {
        u32_at(self.bytes, self.at as usize + 4)
    }

    pub fn expiry(self) -> u32
        ensures { result ≡ expiry_at self.entry.bytes.now self.entry.at }
    {
        u32_at(self.bytes, self.at as usize + 8)
    }

    pub fn code_len(self) -> u32
        ensures { result ≡ code_len_at self.entry.bytes.now self.entry.at }
    {
        u32_at(self.bytes, self.at as usize + 12)
    }

    pub fn sigmask(self) -> u8
        ensures { result ≡ sigmask_at self.entry.bytes.now self.entry.at }
    {
        byte_at(self.bytes, self.at as usize + 959)
    }

    // Where the code starts.
    pub fn code_start(self) -> usize
        ensures { result ≡ code_start_at self.entry.at }
    {
        self.at as usize + 1024
    }

    // Where the code ends, and with it the image.
    pub fn code_end(self) -> usize
        ensures { result ≡ code_end_at self.entry.bytes.now self.entry.at }
    {
        self.code_start() + self.code_len() as usize
    }
}
