// What is shown of loaders, each as the promise of a function with an empty body.
ghost use Rattle.loader.specs.Theorems.{LoadersAreAccepted, OneLoaderHeaderOneCode, LoaderHeadersAnswer, AcceptedLoaderRuns};

// Each check accepts exactly the loaders, and tells what they are.
pub fn loaders_are_accepted()
    ensures { LoadersAreAccepted }
{}

// Loaders that are accepted under the same header are the same, or the lowest chunk in which they
// differ is a collision of BLAKE2s.
pub fn one_loader_header_one_code()
    ensures { OneLoaderHeaderOneCode }
{}

// The digest question is answered exactly for the header of a loader.
pub fn loader_headers_answer()
    ensures { LoaderHeadersAnswer }
{}

// The loader that is handed back is, in its area, exactly header and code of an image that the area's
// check accepts. A refused card changes nothing; with an accepted one the internal area does not
// matter.
pub fn accepted_loader_runs()
    ensures { AcceptedLoaderRuns }
{}
