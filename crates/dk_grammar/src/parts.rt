// What a study's tokens give: blocks, keywords with their values, or a fault.
ghost use Rattle.std.specs.Prelude.{◌≡◌};

use crate::words::{Block, Entry};
use dk_lex::{Span, Tokens};
use std::alloc::AllocError;
use std::marker::Model;
use thiserror::Error;

/// A block that a text opens, and the span of the name that opens it.
#[derive(Clone, Copy, Debug, PartialEq, Eq)]
pub struct Opening {
    pub block: Block,
    pub name: Span,
}

/// A keyword of a block, with the span where it stands, what the block has under it, and the tokens behind it that are
/// its values.
#[derive(Debug, Drop)]
pub struct Item {
    pub block: Block,
    pub keyword: Span,
    pub entry: Entry,
    pub values: Tokens,
}

/// Blocks, in the order of their names in the text.
#[derive(Debug, Drop)]
pub struct Blocks {
    openings: Vec<Opening>,
}

impl Model for Blocks {
    ghost use Rattle.std.specs.Prelude.{List};
    ghost use Rattle.dk_grammar.specs.declared.parts.Opening.{Opening};

    ghost Value = { List Opening };

    ghost view = { λ b. b.openings.items };
}

impl Blocks {
    /// The blocks of a vector.
    pub fn of_vec(openings: Vec<Opening>) -> Blocks
        ensures { result ≡ openings.items }
    {
        Blocks { openings }
    }

    /// The blocks, from the first to the last.
    pub fn items(&self) -> &[Opening]
        ensures { result.now ≡ self.now }
    {
        &self.openings
    }
}

/// Keywords with their values, in the order of the text.
#[derive(Debug, Drop)]
pub struct Items {
    list: Vec<Item>,
}

impl Model for Items {
    ghost use Rattle.std.specs.Prelude.{List};
    ghost use Rattle.dk_grammar.specs.declared.parts.Item.{Item};

    ghost Value = { List Item };

    ghost view = { λ i. i.list.items };
}

impl Items {
    /// The keywords of a vector.
    pub fn of_vec(list: Vec<Item>) -> Items
        ensures { result ≡ list.items }
    {
        Items { list }
    }

    /// The keywords, from the first to the last.
    pub fn items(&self) -> &[Item]
        ensures { result.now ≡ self.now }
    {
        &self.list
    }
}

/// What the tokens of a text without a fault give: its blocks, and its keywords with their values.
#[derive(Debug, Drop)]
pub struct Tree {
    pub blocks: Blocks,
    pub items: Items,
}

/// Why tokens give no tree. A fault of a token has the token's span.
#[derive(Clone, Copy, Debug, PartialEq, Eq, Error)]
pub enum GrammarFault {
    /// The word is no block, no keyword and not refused, or it stands right behind `output` and says nothing of how much
    /// to write.
    #[error("study refused: UnknownKeyword at bytes {}..{}", .0.from, .0.to)]
    UnknownKeyword(Span),
    /// The word is one of Dakota's that is refused here.
    #[error("study refused: Unsupported at bytes {}..{}", .0.from, .0.to)]
    Unsupported(Span),
    /// The block, or the keyword of its block, stands for the second time.
    #[error("study refused: Repeated at bytes {}..{}", .0.from, .0.to)]
    Repeated(Span),
    /// The keyword stands outside of a block that has it, or the value behind no keyword that takes such values.
    #[error("study refused: Misplaced at bytes {}..{}", .0.from, .0.to)]
    Misplaced(Span),
    /// All tokens are in order, but this block, which each study has, isn't there. The span is empty, at the text's
    /// end.
    #[error("study refused: MissingBlock at bytes {}..{} ({block:?})", .1.from, .1.to, block = .0)]
    MissingBlock(Block, Span),
    /// There was no memory for the tree. The tokens have no fault.
    #[error("out of memory")]
    NoMemory,
}

impl From<AllocError> for GrammarFault {
    ghost use Rattle.std.specs.Prelude.{◌≡◌};
    ghost use Rattle.dk_grammar.specs.declared.parts.GrammarFault.TheVariants.{NoMemory};

    ghost from_gives = { λ _ e. e ≡ NoMemory };

    fn from(_e: AllocError) -> GrammarFault {
        GrammarFault::NoMemory
    }
}
