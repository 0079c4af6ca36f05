// What is shown of the definition, as the promise of a function with an empty body.
ghost use Rattle.sha256.specs.Theorems.{BlocksInPlace};

// A block at any place of lent bytes is its own 64 bytes as words, the blocks of a message that lie
// in it whole are blocks of the padded message, and the padding is that of the standard.
pub fn blocks_are_mixed_in_place()
    ensures { BlocksInPlace }
{}
