// What a study file says, keyword by keyword.
ghost use Rattle.std.specs.Prelude.{◌≡◌};

use crate::value::Values;
use dk_grammar::{Block, Blocks, Entry};
use dk_lex::Span;
use std::marker::Model;

/// A keyword of a block: its entry in the table of keywords, where it stands, and its values.
#[derive(Drop)]
pub struct Field {
    pub block: Block,
    pub entry: Entry,
    pub keyword: Span,
    pub values: Values,
}

/// Keywords in order, which contracts see as a list.
#[derive(Drop)]
pub struct Fields {
    items: Vec<Field>,
}

impl Model for Fields {
    ghost use Rattle.std.specs.Prelude.{List};
    ghost use Rattle.dk_reader.specs.declared.document.Field.{Field};

    ghost Value = { List Field };

    ghost view = { λ f. f.items.items };
}

impl Fields {
    /// The keywords of a vector.
    pub fn of_vec(items: Vec<Field>) -> Fields
        ensures { result ≡ items.items }
    {
        Fields { items }
    }

    pub fn items(&self) -> &[Field]
        ensures { result.now ≡ self.now }
    {
        &self.items
    }
}

/// The blocks of a text, and its keywords with their values, in the order of the text.
#[derive(Drop)]
pub struct Document {
    pub blocks: Blocks,
    pub fields: Fields,
}
