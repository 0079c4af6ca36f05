// What is shown of the older model, each as the promise of a function with an empty body.
ghost use Rattle.older_model.specs.Theorems.{OlderImagesAreAccepted, OlderHeadersOneCode, OlderHeadersAnswer};

// Each check accepts exactly the images of its form, said of their bytes, and hands back their code. The
// key sheet is asked before all else, and then the magic.
pub fn older_images_are_accepted()
    ensures { OlderImagesAreAccepted }
{}

// Images that are accepted under the same headers are the same, or the lowest chunk that differs is a
// collision of SHA-256.
pub fn older_headers_one_code()
    ensures { OlderHeadersOneCode }
{}

// Each digest question is answered exactly for its headers, by the digest of what is signed.
pub fn older_headers_answer()
    ensures { OlderHeadersAnswer }
{}
