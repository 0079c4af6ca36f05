// What is shown of the checks, each as the promise of a function with an empty body.
ghost use Rattle.image.specs.Theorems.{ErasedOrZeroRefused, AcceptedBeforeErased, AcceptedParts, AcceptedIsSigned, OneHeaderOneCode, SignaturesAreNotRead};

// A first word that is erased, or zero, makes the slot check refuse with number 1, for any inputs.
pub fn erased_or_zero_is_refused()
    ensures { ErasedOrZeroRefused }
{}

// What the file check accepts, the slot check accepts when erased bytes follow.
pub fn accepted_before_erased_bytes()
    ensures { AcceptedBeforeErased }
{}

// The parts that are handed back of an accepted image stand where they must, and are as long.
pub fn accepted_parts()
    ensures { AcceptedParts }
{}

// An accepted image is signed, both of its headers, and an accepted slot is erased behind it.
pub fn accepted_is_signed()
    ensures { AcceptedIsSigned }
{}

// What is accepted under the same two headers is the same, or the lowest chunk that differs is a
// collision of BLAKE2s.
pub fn one_header_one_code()
    ensures { OneHeaderOneCode }
{}

// What differs inside the two signatures alone is answered alike.
pub fn signatures_are_not_read()
    ensures { SignaturesAreNotRead }
{}
