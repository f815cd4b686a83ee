//! Laws of the definitions, as the contracts of functions that do nothing.
ghost use Rattle.dk_words.specs.Words.{EachCommandOrPlace, EachFaultInOrder, EachCallIsCommanded};

/// The words of each command line have just one command or just one first fault.
pub fn each_command_or_place()
    ensures { EachCommandOrPlace }
{}

/// The faults of the words stand in order of place, so that the first stands at the least place.
pub fn each_fault_in_order()
    ensures { EachFaultInOrder }
{}

/// Words are those of a run where they command one, and those of a check where they command one.
pub fn each_call_is_commanded()
    ensures { EachCallIsCommanded }
{}
