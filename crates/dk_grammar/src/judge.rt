// The fault of a token.
ghost use Rattle.std.specs.Prelude.{◌≡◌, true, false};
ghost use Rattle.dk_grammar.specs.Lists.{first};
ghost use Rattle.dk_grammar.specs.Judging.{faults_by};

use crate::parts::GrammarFault;
use dk_lex::Span;

/// What is known of a token where it stands.
#[derive(Clone, Copy)]
pub struct Known {
    /// It is neither a number nor a string.
    pub word: bool,
    /// It opens a block.
    pub opens: bool,
    /// It stands right behind `output`.
    pub wants_mode: bool,
    /// It is a word that `output` takes.
    pub mode: bool,
    /// It is a keyword of some block.
    pub keyword: bool,
    /// It is a refused word.
    pub refused: bool,
    /// It is a keyword of the block in which it stands.
    pub entry: bool,
    /// The keyword before it takes values of its kind.
    pub taken: bool,
    /// It stands for the second time: a block in the text, or a keyword in its block.
    pub seen: bool,
}

/// The first fault of a word.
fn word_fault(span: Span, known: &Known) -> Option<GrammarFault>
    requires { known.now.word ≡ true }
    ensures { result ≡ first (faults_by span known.now) }
{
    if known.opens {
        return if known.seen {
            Some(GrammarFault::Repeated(span))
        } else {
            None
        };
    }
    if known.wants_mode {
        return if known.mode {
            None
        } else {
            Some(GrammarFault::UnknownKeyword(span))
        };
    }
    if known.refused {
        return Some(GrammarFault::Unsupported(span));
    }
    if !known.keyword {
        return Some(GrammarFault::UnknownKeyword(span));
    }
    if !known.entry {
        return Some(GrammarFault::Misplaced(span));
    }
    if known.seen {
        Some(GrammarFault::Repeated(span))
    } else {
        None
    }
}

/// The first fault of a token.
pub fn token_fault(span: Span, known: &Known) -> Option<GrammarFault>
    requires { known.now.word ≡ false → (known.now.opens ≡ false) × (known.now.entry ≡ false) }
    ensures { result ≡ first (faults_by span known.now) }
{
    if known.word {
        word_fault(span, known)
    } else if known.taken {
        None
    } else {
        Some(GrammarFault::Misplaced(span))
    }
}
