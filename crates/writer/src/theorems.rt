// The writers and the check agree (specification, 8.3). Each theorem is the promise of a function with an empty
// body.
ghost use Rattle.writer.specs.Theorems.{WrittenImagesPass, RewrittenImagesAreTheSame, WrittenImagesAnswer};

// A well-formed image that the writers left passes the file check with yes from the chip.
pub fn written_images_pass()
    ensures { WrittenImagesPass }
{}

// An accepted image, taken apart and written again, is the same bytes: a file whole, and a slot up to
// the image's end.
pub fn rewritten_images_are_the_same()
    ensures { RewrittenImagesAreTheSame }
{}

// The digest questions on a file that the writers left are answered, whatever was written as sigmask
// and signature.
pub fn written_images_answer()
    ensures { WrittenImagesAnswer }
{}
