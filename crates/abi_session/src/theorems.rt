// What is shown of a session's words, each as the promise of a function with an empty body.
ghost use Rattle.abi_session.specs.Carried.{WordsCarryTheRecord, WordsTellTheOperation};

// What a call leaves in the words is the record that it gave (specification, 10.2).
pub fn words_carry_the_record()
    ensures { WordsCarryTheRecord }
{}

// The operation that a call hands back stands in its words (specification, 10.5).
pub fn words_tell_the_operation()
    ensures { WordsTellTheOperation }
{}
