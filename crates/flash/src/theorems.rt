// What is shown of the flash's operations, as the promise of a function with an empty body.
ghost use Rattle.flash.specs.Interrupted.{InterruptedOperations};

// An operation that the power cuts leaves what the flash maker says, and may leave all of it
// (specification, 9).
pub fn interrupted_operations()
    ensures { InterruptedOperations }
{}
