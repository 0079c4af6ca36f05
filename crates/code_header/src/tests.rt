// The tests, each true where its step fails. The definitions in `specs/Tests.antt` say which step of
// the specification each is.
ghost use Rattle.std.specs.Prelude.{◌≡◌};
ghost use Rattle.code_header.specs.Tests.{expired, mask_wrong, code_len_outside, header_cut_at, magic_missing_at, hdr_len_wrong_at, code_len_wrong_at, bytes_not_zero_at, expired_at, mask_wrong_at, code_cut_at, bytes_follow_at, tail_not_at};

use crate::CodeHeader;
use octets::{all_are, bit_at_or_above, ones, part, rest, starts_with};

pub fn expired(expiry: u32, time: u32) -> bool
    ensures { result ≡ expired expiry time }
{
    (expiry != 0) & (expiry < time)
}

pub fn mask_wrong(m: u32, n: u32, mask: u8) -> bool
    ensures { result ≡ mask_wrong m n mask }
{
    bit_at_or_above(mask, n) | (ones(mask) != m)
}

pub fn code_len_outside(most: usize, c: usize) -> bool
    ensures { result ≡ code_len_outside most c }
{
    (c == 0) | (c % 4 != 0) | (most < c)
}

impl<'a> CodeHeader<'a> {
    pub fn is_cut(self) -> bool
        ensures { result ≡ header_cut_at self.entry.bytes.now self.entry.at }
    {
        self.bytes.len() < self.at as usize + 1024
    }

    pub fn magic_missing(self, letters: &[u8]) -> bool
        ensures { result ≡ magic_missing_at self.entry.bytes.now self.entry.at letters.now }
    {
        !starts_with(self.magic(), letters)
    }

    pub fn hdr_len_wrong(self) -> bool
        ensures { result ≡ hdr_len_wrong_at self.entry.bytes.now self.entry.at }
    {
        self.hdr_len() != 1024
    }

    pub fn code_len_wrong(self, most: usize) -> bool
        ensures { result ≡ code_len_wrong_at self.entry.bytes.now self.entry.at most }
    {
        code_len_outside(most, self.code_len() as usize)
    }

    pub fn bytes_not_zero(self, gap: u32, end: u32) -> bool
        ensures { result ≡ bytes_not_zero_at self.entry.bytes.now self.entry.at gap end }
    {
        let from = self.at as usize;
        let first = part(self.bytes, from + 24, from + 32);
        let later = part(self.bytes, from + gap as usize, from + end as usize);
        !(all_are(first, 0) & all_are(later, 0))
    }

    pub fn expired(self, time: u32) -> bool
        ensures { result ≡ expired_at self.entry.bytes.now self.entry.at time }
    {
        expired(self.expiry(), time)
    }

    pub fn mask_wrong(self, m: u32, n: u32) -> bool
        ensures { result ≡ mask_wrong_at self.entry.bytes.now self.entry.at m n }
    {
        mask_wrong(m, n, self.sigmask())
    }

    pub fn code_cut(self) -> bool
        ensures { result ≡ code_cut_at self.entry.bytes.now self.entry.at }
    {
        self.bytes.len() < self.code_end()
    }

    pub fn bytes_follow(self) -> bool
        ensures { result ≡ bytes_follow_at self.entry.bytes.now self.entry.at }
    {
        self.code_end() < self.bytes.len()
    }

    pub fn tail_not(self, x: u8) -> bool
        ensures { result ≡ tail_not_at self.entry.bytes.now self.entry.at x }
    {
        !all_are(rest(self.bytes, self.code_end()), x)
    }
}
