//! The law of the definitions, as the contract of a function that does nothing.
ghost use Rattle.dk_reader.specs.Reading.{EachTextSays};

use dk_lex::laws::each_text_lexes;

/// Each text says just one study or has just one first fault.
pub fn each_text_says()
    ensures { EachTextSays }
{
    each_text_lexes();
}
