// Lists of labels, words and numbers, as the values of keywords say them.
ghost use Rattle.std.specs.Prelude.{◌≡◌, ◌++◌, map, replicate, decimal, IfOk, OnOk};
ghost use Rattle.dk_reader.specs.Values as value_spec;
ghost use Rattle.dk_reader.specs.Study as study_spec;

use crate::document::Document;
use crate::fields::LABELS;
use crate::value::Value;
use dk_grammar::{Block, Name};
use dk_types::{Counts, Decs, Labels, Text, Words};
use std::alloc::{AllocError, Global};

/// Puts an item behind others, so many times.
pub fn push_copies<T: Copy + Drop>(
    items: &mut Vec<T>,
    item: T,
    count: u32,
) -> Result<(), AllocError>
    ensures { OnOk result (items.new.items ≡ items.old.items ++ replicate count item) }
{
    for _copy in 0..count {
        items.push(item)?;
    }
    Ok(())
}

/// The whole numbers of values.
pub fn counts_of(alloc: Global, values: &[Value]) -> Result<Counts, AllocError>
    ensures { IfOk result (λ c. c ≡ map value_spec.whole (value_spec.spread values.now)) }
{
    let mut counts = Vec::new(alloc);
    for value in values {
        push_copies(&mut counts, value.whole(), value.count())?;
    }
    Ok(Counts::of_vec(counts))
}

/// The numbers of values.
pub fn numbers_of(alloc: Global, values: &[Value]) -> Result<Decs, AllocError>
    ensures { IfOk result (λ d. d ≡ map value_spec.number (value_spec.spread values.now)) }
{
    let mut numbers = Vec::new(alloc);
    for value in values {
        push_copies(&mut numbers, value.number(), value.count())?;
    }
    Ok(Decs::of_vec(numbers))
}

fn push_texts(
    alloc: Global,
    texts: &mut Vec<Text>,
    text: &str,
    count: u32,
) -> Result<(), AllocError>
    ensures { OnOk result (texts.new.items ≡ texts.old.items ++ replicate count text.now) }
{
    for _copy in 0..count {
        texts.push(Text::of(alloc, text)?)?;
    }
    Ok(())
}

/// The strings of values.
fn labels_of(alloc: Global, values: &[Value]) -> Result<Labels, AllocError>
    ensures { IfOk result (λ l. l ≡ map value_spec.string (value_spec.spread values.now)) }
{
    let mut labels = Vec::new(alloc);
    for value in values {
        push_texts(alloc, &mut labels, value.string(), value.count())?;
    }
    Ok(Labels::of_vec(labels))
}

fn numbered_label(alloc: Global, prefix: &str, number: u32) -> Result<Text, AllocError>
    ensures { IfOk result (λ t. t ≡ prefix.now ++ decimal number) }
{
    let label = format!(in alloc; "{prefix}{number}")?;
    Text::of(alloc, &label)
}

/// PREFIX1, PREFIX2, ..
fn numbered(alloc: Global, prefix: &str, count: u32) -> Result<Labels, AllocError>
    ensures { IfOk result (λ l. l ≡ study_spec.numbered prefix.now count) }
{
    let mut labels = Vec::with_capacity(alloc, count as usize)?;
    for place in 0..count {
        labels.push(numbered_label(alloc, prefix, place + 1)?)?;
    }
    Ok(Labels::of_vec(labels))
}

/// The pieces of a text between blanks.
pub fn words_of(alloc: Global, text: &str) -> Result<Words, AllocError>
    ensures { IfOk result (λ w. w ≡ study_spec.words_of text.now) }
{
    let mut words = Vec::new(alloc);
    for word in text.split(' ') {
        if !word.is_empty() {
            words.push(Text::of(alloc, word)?)?;
        }
    }
    Words::of(alloc, &words)
}

impl Document {
    /// The labels of variables, as they are written or by default.
    pub fn variable_labels(&self, alloc: Global) -> Result<Labels, AllocError>
        ensures { IfOk result (λ l. l ≡ study_spec.variable_labels self.now) }
    {
        match self.first_field(Block::Variables, &[Name::Descriptors]) {
            Some(field) => labels_of(alloc, field.values.items()),
            None => numbered(alloc, "cdv_", self.variable_count()),
        }
    }

    fn default_responses(&self, alloc: Global) -> Result<Labels, AllocError>
        ensures { IfOk result (λ l. l ≡ study_spec.default_responses self.now) }
    {
        let count = self.response_count();
        if !self.has(Block::Responses, Name::ObjectiveFunctions) {
            numbered(alloc, "response_fn_", count)
        } else if count == 1 {
            Labels::of(alloc, &[Text::of(alloc, "obj_fn")?])
        } else {
            numbered(alloc, "obj_fn_", count)
        }
    }

    /// The labels of responses, as they are written or by default.
    pub fn response_labels(&self, alloc: Global) -> Result<Labels, AllocError>
        ensures { IfOk result (λ l. l ≡ study_spec.response_labels self.now) }
    {
        match self.first_field(Block::Responses, &LABELS) {
            Some(field) => labels_of(alloc, field.values.items()),
            None => self.default_responses(alloc),
        }
    }
}
