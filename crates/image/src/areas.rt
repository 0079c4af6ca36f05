// Where the areas of an image stand, by the numbers of its headers: the string, the picture area and
// the code.
ghost use Rattle.std.specs.Prelude.{◌≡◌};
ghost use Rattle.image.specs.Areas.{string_span, picture_span, code_span_at, code_span};

use code_header::CodeHeader;
use header::layout::{
    firmware_header, key_count, picture_start, string_end, string_len, string_start, vendor_len,
};
use octets::Span;

pub fn string_span(b: &[u8]) -> Span
    ensures { result ≡ string_span b.now }
{
    let n = key_count(b);
    Span {
        from: string_start(n),
        to: string_end(n, string_len(b)),
    }
}

pub fn picture_span(b: &[u8]) -> Span
    ensures { result ≡ picture_span b.now }
{
    Span {
        from: picture_start(key_count(b), string_len(b)),
        to: (vendor_len(b) as usize).saturating_sub(65),
    }
}

// The code behind a header that starts at an offset.
pub fn code_span_at(header: CodeHeader<'_>) -> Span
    ensures { result ≡ code_span_at header.entry.bytes.now header.entry.at }
{
    Span {
        from: header.code_start(),
        to: header.code_end(),
    }
}

pub fn code_span(b: &[u8]) -> Span
    ensures { result ≡ code_span b.now }
{
    code_span_at(firmware_header(b))
}
