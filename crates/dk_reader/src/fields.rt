// What stands in a document.
ghost use Rattle.std.specs.Prelude.{◌≡◌, ◌≤◌, ◌*◌, [], ◌∷◌, List, length, option_copied, slice_get, filter};
ghost use Rattle.dk_grammar.specs.Lists.{first};
ghost use Rattle.dk_num.specs.Decimal.{zero_decimal};
ghost use Rattle.dk_reader.specs.Values as value_spec;
ghost use Rattle.dk_reader.specs.Document as document_spec;

use crate::document::{Document, Field};
use crate::value::Value;
use dk_grammar::{Block, Name, Opening};
use dk_lex::Span;
use dk_num::Dec;

/// The keywords of methods.
pub const METHODS: [Name; 5] = [
    Name::VectorParameterStudy,
    Name::ListParameterStudy,
    Name::CenteredParameterStudy,
    Name::MultidimParameterStudy,
    Name::CompassSearch,
];

/// The keywords of responses.
pub const FUNCTIONS: [Name; 2] = [Name::ObjectiveFunctions, Name::ResponseFunctions];

/// The keywords of labels.
pub const LABELS: [Name; 2] = [Name::Descriptors, Name::ResponseDescriptors];

/// How many values these stand for.
pub fn count_of(values: &[Value]) -> u128
    ensures { result ≡ value_spec.count_of values.now }
{
    let mut sum = 0u128;
    for value in values {
        sum += u128::from(value.count());
    }
    sum
}

/// The decimal 0.
#[tactic(auto, unfolding(dk_num::specs::Decimal::decimal_of))]
pub fn zero() -> Dec
    ensures { result ≡ zero_decimal }
{
    Dec::whole(0)
}

/// Whether a name is one of these.
pub fn is_name_in(names: &[Name], name: Name) -> bool
    ensures { result ≡ document_spec.is_name_in names.now name }
{
    names.iter().any(|other| name == *other)
}

fn nth_among<'a>(
    fields: &'a [Field],
    block: Block,
    names: &[Name],
    place: usize,
) -> Option<&'a Field>
    ensures { option_copied result ≡ slice_get (filter (document_spec.is_field block names.now) fields.now) place }
{
    fields
        .iter()
        .filter(|field| field.is_field(block, names))
        .nth(place)
}

fn first_whole(field: Option<&Field>, otherwise: u32) -> u32
    ensures { result ≡ document_spec.first_whole (option_copied field.entry) otherwise }
{
    match field {
        Some(field) => match field.values.items() {
            [value, ..] => value.whole(),
            [] => otherwise,
        },
        None => otherwise,
    }
}

fn first_string<'a>(field: Option<&'a Field>, otherwise: &'a str) -> &'a str
    ensures { result.now ≡ document_spec.first_string (option_copied field.entry) otherwise.now }
{
    match field {
        Some(field) => match field.values.items() {
            [value, ..] => value.string(),
            [] => otherwise,
        },
        None => otherwise,
    }
}

fn part_of(parts: &[Opening], block: Block) -> Span
    ensures { result ≡ document_spec.span_of parts.now block }
{
    match parts.iter().find(|part| block == part.block) {
        Some(part) => part.name,
        None => Span { from: 0, to: 0 },
    }
}

impl Field {
    /// Whether it is a keyword of a block under one of these names.
    pub fn is_field(&self, block: Block, names: &[Name]) -> bool
        ensures { result ≡ document_spec.is_field block names.now self.now }
    {
        block == self.block && is_name_in(names, self.entry.name)
    }
}

impl Document {
    /// The keyword at a place, counted from 0, among those of a block that have one of these names.
    pub fn nth_field(&self, block: Block, names: &[Name], place: usize) -> Option<&Field>
        ensures { option_copied result ≡ slice_get (document_spec.fields_of self.now block names.now) place }
    {
        nth_among(self.fields.items(), block, names, place)
    }

    /// The first of them.
    pub fn first_field(&self, block: Block, names: &[Name]) -> Option<&Field>
        ensures { option_copied result ≡ first (document_spec.fields_of self.now block names.now) }
    {
        self.nth_field(block, names, 0)
    }

    /// A keyword of a block.
    pub fn field_of(&self, block: Block, name: Name) -> Option<&Field>
        ensures { option_copied result ≡ document_spec.field_of self.now block name }
    {
        self.first_field(block, &[name])
    }

    /// Whether a block has a keyword.
    pub fn has(&self, block: Block, name: Name) -> bool
        ensures { result ≡ document_spec.has self.now block name }
    {
        self.field_of(block, name).is_some()
    }

    /// The values of a keyword, where it is there.
    pub fn values_at(&self, block: Block, name: Name) -> &[Value]
        ensures { result.now ≡ document_spec.values_at self.now block name }
    {
        match self.field_of(block, name) {
            Some(field) => field.values.items(),
            None => &[],
        }
    }

    /// The first whole number that one of these keywords has, or this one.
    pub fn whole_among(&self, block: Block, names: &[Name], otherwise: u32) -> u32
        ensures { result ≡ document_spec.whole_among self.now block names.now otherwise }
    {
        first_whole(self.first_field(block, names), otherwise)
    }

    /// The first whole number that a keyword has, or this one.
    pub fn whole_at(&self, block: Block, name: Name, otherwise: u32) -> u32
        ensures { result ≡ document_spec.whole_at self.now block name otherwise }
    {
        self.whole_among(block, &[name], otherwise)
    }

    /// The first string that a keyword has, or this one.
    pub fn string_at<'a>(&'a self, block: Block, name: Name, otherwise: &'a str) -> &'a str
        ensures { result.now ≡ document_spec.string_at self.now block name otherwise.now }
    {
        first_string(self.field_of(block, name), otherwise)
    }

    /// The name of the parameters file.
    pub fn parameters_name(&self) -> &str
        ensures { result.now ≡ document_spec.parameters_name self.now }
    {
        self.string_at(Block::Interface, Name::ParametersFile, "params.in")
    }

    /// The name of the results file.
    pub fn results_name(&self) -> &str
        ensures { result.now ≡ document_spec.results_name self.now }
    {
        self.string_at(Block::Interface, Name::ResultsFile, "results.out")
    }

    /// The number of variables.
    pub fn variable_count(&self) -> u32
        ensures { result ≡ document_spec.variable_count self.now }
    {
        self.whole_at(Block::Variables, Name::ContinuousDesign, 0)
    }

    /// The number of responses.
    pub fn response_count(&self) -> u32
        ensures { result ≡ document_spec.response_count self.now }
    {
        self.whole_among(Block::Responses, &FUNCTIONS, 0)
    }

    /// The keyword of the method.
    pub fn method_field(&self) -> Option<&Field>
        ensures { option_copied result ≡ document_spec.method_field self.now }
    {
        self.first_field(Block::Method, &METHODS)
    }

    /// Whether the method is this one.
    pub fn method_is(&self, name: Name) -> bool
        ensures { result ≡ document_spec.method_is self.now name }
    {
        self.method_field()
            .is_some_and(|field| field.entry.name == name)
    }

    /// Where a block's name stands.
    pub fn block_span(&self, block: Block) -> Span
        ensures { result ≡ document_spec.block_span self.now block }
    {
        part_of(self.blocks.items(), block)
    }
}
