// What is shown of the definitions, each as the promise of a function with an empty body.
ghost use Rattle.octets.specs.Theorems.{RoundingIsRight};

// Rounding to a size is right for every size: 512 and 4,096 are two of them.
pub fn rounding_is_right()
    ensures { RoundingIsRight }
{}
