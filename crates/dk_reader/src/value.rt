// The values of keywords, as they are written.
ghost use Rattle.std.specs.Prelude.{◌≡◌};

use crate::fields::zero;
use dk_lex::Span;
use dk_num::Dec;
use dk_types::Text;
use std::marker::Model;

/// A value: where it stands, how many times it stands for itself (none where its N isn't from 1 to 4,000,000), the
/// whole number and the number that it is behind its N, and the string that it is.
#[derive(Drop)]
pub struct Value {
    pub span: Span,
    pub copies: Option<u32>,
    pub whole: Option<u32>,
    pub number: Option<Dec>,
    pub string: Option<Text>,
}

impl Value {
    ghost use Rattle.std.specs.Prelude.{◌≡◌};
    ghost use Rattle.dk_reader.specs.Values as value_spec;

    /// How many values it stands for.
    pub fn count(&self) -> u32
        ensures { result ≡ value_spec.count self.now }
    {
        self.copies.unwrap_or(1)
    }

    /// The whole number that it is, and 0 where it is none.
    pub fn whole(&self) -> u32
        ensures { result ≡ value_spec.whole self.now }
    {
        self.whole.unwrap_or(0)
    }

    /// The number that it is, and 0 where it is none.
    pub fn number(&self) -> Dec
        ensures { result ≡ value_spec.number self.now }
    {
        self.number.unwrap_or(zero())
    }

    /// The string that it is, and the empty one where it is none.
    pub fn string(&self) -> &str
        ensures { result.now ≡ value_spec.string self.now }
    {
        match &self.string {
            Some(text) => text.as_str(),
            None => "",
        }
    }
}

/// Values in order, which contracts see as a list.
#[derive(Drop)]
pub struct Values {
    items: Vec<Value>,
}

impl Model for Values {
    ghost use Rattle.std.specs.Prelude.{List};
    ghost use Rattle.dk_reader.specs.declared.value.Value.{Value as TheValue};

    ghost Value = { List TheValue };

    ghost view = { λ v. v.items.items };
}

impl Values {
    /// The values of a vector.
    pub fn of_vec(items: Vec<Value>) -> Values
        ensures { result ≡ items.items }
    {
        Values { items }
    }

    pub fn items(&self) -> &[Value]
        ensures { result.now ≡ self.now }
    {
        &self.items
    }
}
