// What is shown of the definitions, each as the promise of a function with an empty body.
ghost use Rattle.header.specs.Theorems.{AlikeHeadersPassAlike, PassingHeadersAreSigned};

// Lists of bytes that agree on what the headers' steps read get the same answer of them.
pub fn alike_headers_pass_alike()
    ensures { AlikeHeadersPassAlike }
{}

// Headers that pass are signed, both of them: by exactly m of n keys, and with the chip's yes.
pub fn passing_headers_are_signed()
    ensures { PassingHeadersAreSigned }
{}
