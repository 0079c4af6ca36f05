// What is shown of the definition, each as the promise of a function with an empty body.
ghost use Rattle.blake2s.specs.Theorems.{Resumable, BlocksInPlace};

// A message hashed in slices has the digest of the whole.
pub fn hashing_can_be_resumed()
    ensures { Resumable }
{}

// A block at any place of lent bytes is its own 64 bytes as words, the digest is the fold over all
// blocks, and of a run that starts in the lent bytes exactly the blocks that lie whole are counted.
pub fn blocks_are_mixed_in_place()
    ensures { BlocksInPlace }
{}
