// The specification's worked numbers, one table under one statement, proved of the definitions.
#![tactic(auto)]

ghost use Rattle.worked_numbers.specs.Table.{WorkedNumbersHold};

// Every definition in the table gives the number that the specification says.
pub fn worked_numbers_hold()
    ensures { WorkedNumbersHold }
{}
