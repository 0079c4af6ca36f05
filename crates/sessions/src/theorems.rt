// What is shown of the installer's calls, each as the promise of a function with an empty body.
ghost use Rattle.sessions.specs.Operations.{AtMostOneOperation};
ghost use Rattle.sessions.specs.Run.{DoneMeansLanded, NextSessionLands};

// Each call makes at most one operation of the flash (specification, 10.1).
pub fn at_most_one_operation()
    ensures { AtMostOneOperation }
{}

// Done means landed (specification, 11).
pub fn done_means_landed()
    ensures { DoneMeansLanded }
{}

// After sessions that the power cuts inside a call, the next one starts with begin and lands by the
// same statement (specification, 11).
pub fn next_session_lands()
    ensures { NextSessionLands }
{}
