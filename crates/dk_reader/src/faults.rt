// The first of a list of faults.
ghost use Rattle.std.specs.Prelude.{◌≡◌, option_copied, nat_eq};
ghost use Rattle.std.specs.List.{list_all};
ghost use Rattle.dk_grammar.specs.Lists.{first};
ghost use Rattle.dk_types.specs.Labels as label_spec;
ghost use Rattle.dk_reader.specs.Document as document_spec;
ghost use Rattle.dk_reader.specs.Study as study_spec;
ghost use Rattle.dk_reader.specs.Steps as step_spec;
ghost use Rattle.dk_reader.specs.Tests as test_spec;

use crate::document::{Document, Field};
use crate::fault::{StudyFault, StudyKind};
use crate::fields::{is_name_in, zero};
use crate::value::Value;
use dk_grammar::{Block, Name};
use dk_lex::Span;
use dk_num::Dec;

/// A fault where a test holds.
pub fn wrong_if(wrong: bool, kind: StudyKind, span: Span) -> Option<StudyFault>
    ensures { result ≡ first (step_spec.wrong_if wrong kind span) }
{
    if wrong {
        Some(StudyFault { kind, span })
    } else {
        None
    }
}

/// A fault at a keyword, if it is there.
pub fn at_field(kind: StudyKind, field: Option<&Field>) -> Option<StudyFault>
    ensures { result ≡ first (step_spec.at_field kind (option_copied field.entry)) }
{
    match field {
        Some(field) => Some(StudyFault {
            kind,
            span: field.keyword,
        }),
        None => None,
    }
}

/// A keyword that stands without the one that it needs.
pub fn needs_another(field: Option<&Field>, other: bool) -> Option<StudyFault>
    ensures { result ≡ first (step_spec.needs_another (option_copied field.entry) other) }
{
    if other {
        None
    } else {
        at_field(StudyKind::Missing, field)
    }
}

/// What a value may not be.
#[derive(Clone, Copy)]
pub enum Wrong {
    /// No whole number from one number up to another.
    Whole(u32, u32),
    /// Many times itself, for an N that isn't from 1 to 4,000,000.
    Copies,
    /// No number that this keyword of this block takes.
    Number(Block, Name),
    /// A string of blanks alone.
    Blank,
    /// Another driver than `rosenbrock`.
    OtherDriver,
    /// No label.
    Label,
    /// An empty string.
    Empty,
}

/// The deltas of a compass search.
const DELTAS: [Name; 2] = [Name::InitialDelta, Name::ThresholdDelta];

/// Whether the numbers of a block are told in units.
pub fn is_measured(block: Block) -> bool
    ensures { result ≡ study_spec.is_measured block }
{
    matches!(block, Block::Variables | Block::Method)
}

/// Whether a decimal is greater than another.
pub fn is_above(first: Dec, second: Dec) -> bool
    ensures { result ≡ step_spec.is_above first second }
{
    first > second
}

fn is_good_number(block: Block, name: Name, number: Dec) -> bool
    ensures { result ≡ step_spec.is_good_number block name number }
{
    (!is_measured(block) || number.is_moderate())
        && (!is_name_in(&DELTAS, name) || is_above(number, zero()))
}

/// Whether all bytes are blanks.
fn is_blank(bytes: &[u8]) -> bool
    ensures { result ≡ list_all (λ b. nat_eq b 32) bytes.now }
{
    bytes.iter().all(|byte| *byte == b' ')
}

/// Whether all bytes are visible.
fn is_visible(bytes: &[u8]) -> bool
    ensures { result ≡ list_all label_spec.is_visible bytes.now }
{
    bytes.iter().all(|byte| 33 <= *byte && *byte <= 126)
}

/// Whether a text may be a label.
fn is_label(bytes: &[u8]) -> bool
    ensures { result ≡ label_spec.is_label bytes.now }
{
    match bytes {
        [first, ..] => {
            (first.is_ascii_alphabetic() || *first == b'_')
                && is_visible(bytes)
                && bytes.len() <= 255
        }
        [] => false,
    }
}

/// A fault at the first value that is what it may not be.
pub fn at_values(kind: StudyKind, wrong: Wrong, values: &[Value]) -> Option<StudyFault>
    ensures { result ≡ first (step_spec.at_values kind (test_spec.is_wrong wrong) values.now) }
{
    match values.iter().find(|value| value.is_wrong(wrong)) {
        Some(value) => Some(StudyFault {
            kind,
            span: value.span,
        }),
        None => None,
    }
}

impl Value {
    fn is_bad_whole(&self, low: u32, high: u32) -> bool
        ensures { result ≡ step_spec.is_bad_whole low high self.now }
    {
        if self.copies.is_none() {
            return true;
        }
        match self.whole {
            Some(whole) => !(low <= whole && whole <= high),
            None => true,
        }
    }

    fn is_bad_number(&self, block: Block, name: Name) -> bool
        ensures { result ≡ step_spec.is_bad_number block name self.now }
    {
        match self.number {
            Some(number) => !is_good_number(block, name, number),
            None => true,
        }
    }

    fn is_wrong(&self, wrong: Wrong) -> bool
        ensures { result ≡ test_spec.is_wrong wrong self.now }
    {
        match wrong {
            Wrong::Whole(low, high) => self.is_bad_whole(low, high),
            Wrong::Copies => self.copies.is_none(),
            Wrong::Number(block, name) => self.is_bad_number(block, name),
            Wrong::Blank => is_blank(self.string().as_bytes()),
            Wrong::OtherDriver => self.string() != "rosenbrock",
            Wrong::Label => !is_label(self.string().as_bytes()),
            Wrong::Empty => self.string().is_empty(),
        }
    }
}

impl Document {
    /// A fault at the second of a block's keywords that have one of these names.
    pub fn at_second(&self, kind: StudyKind, block: Block, names: &[Name]) -> Option<StudyFault>
        ensures { result ≡ first (step_spec.at_second kind (document_spec.fields_of self.now block names.now)) }
    {
        at_field(kind, self.nth_field(block, names, 1))
    }

    /// A keyword that its block needs.
    pub fn needed(&self, block: Block, name: Name) -> Option<StudyFault>
        ensures { result ≡ first (step_spec.needed self.now block name) }
    {
        wrong_if(
            !self.has(block, name),
            StudyKind::Missing,
            self.block_span(block),
        )
    }

    /// Just one keyword of a block has one of these names.
    pub fn one_of(&self, block: Block, names: &[Name]) -> Option<StudyFault>
        ensures { result ≡ first (step_spec.one_of self.now block names.now) }
    {
        let missing = wrong_if(
            self.first_field(block, names).is_none(),
            StudyKind::Missing,
            self.block_span(block),
        );
        missing.or(self.at_second(StudyKind::Conflict, block, names))
    }
}
