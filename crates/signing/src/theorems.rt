// What is shown of the definitions, each as the promise of a function with an empty body.
ghost use Rattle.signing.specs.Theorems.{SignaturesStand, SignaturesAreNotSigned};

// Where a digest question is answered, the places of the signature stand in the bytes; after a refusal
// there are none.
pub fn signatures_stand()
    ensures { SignaturesStand }
{}

// What differs inside the two signatures alone gets the same answers of both digest questions.
pub fn signatures_are_not_signed()
    ensures { SignaturesAreNotSigned }
{}
