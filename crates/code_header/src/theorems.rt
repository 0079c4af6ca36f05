// What is shown of the tests, each as the promise of a function with an empty body.
ghost use Rattle.code_header.specs.Signers.{MasksPassBySigners};

// A sigmask passes the test of S10 and S19 exactly if it names m signers among n keys, no fewer
// and no more.
pub fn masks_pass_by_signers()
    ensures { MasksPassBySigners }
{}
