// What is shown of the words, each as the promise of a function with an empty body.
ghost use Rattle.abi.specs.Theorems.{NumbersAreRead, WordsTellTheAnswer, WordsTellTheLoader, WordsTellTheOlderImage};

// Numbers that fit their fields are read as they stand.
pub fn numbers_are_read()
    ensures { NumbersAreRead }
{}

// What a check is given, and what it tells, stands each in its own word.
pub fn words_tell_the_answer()
    ensures { WordsTellTheAnswer }
{}

// So does what the choice between two areas is given and tells. The place that is told for the loader
// to run holds it.
pub fn words_tell_the_loader()
    ensures { WordsTellTheLoader }
{}

// So does what the checks of the older model are given. The place that is told for the code of an
// image holds it.
pub fn words_tell_the_older_image()
    ensures { WordsTellTheOlderImage }
{}
