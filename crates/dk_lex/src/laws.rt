//! Laws of the definitions: what a reader may conclude from them. Each is the contract of a function that does nothing.
ghost use Rattle.dk_lex.specs.Cut.{EachTextIsCut, EachTextLexes};

/// Each text, whatever its bytes and however long, has just one cut into longest pieces that goes as far as a piece
/// begins: up to the text's end, or up to its first fault.
pub fn each_text_is_cut()
    ensures { EachTextIsCut }
{}

/// Each text, whatever its bytes and however long, has just one outcome: the tokens of its cut, or its first fault.
pub fn each_text_lexes()
    ensures { EachTextLexes }
{}
