// The fifth and sixth step: the values of keywords and their counts, labels and file names.
ghost use Rattle.std.specs.Prelude.{◌≡◌, ◌++◌, take, drop};
ghost use Rattle.std.specs.List.{list_any};
ghost use Rattle.dk_grammar.specs.Lists.{first};
ghost use Rattle.dk_reader.specs.declared.fault.StudyKind.TheVariants.{BadLabel as bad_label_kind};
ghost use Rattle.dk_reader.specs.Document as document_spec;
ghost use Rattle.dk_reader.specs.Steps as step_spec;

use crate::document::{Document, Field};
use crate::fault::{StudyFault, StudyKind};
use crate::faults::{Wrong, at_values, wrong_if};
use crate::fields::{LABELS, count_of, is_name_in};
use crate::value::Value;
use dk_grammar::{Block, Count, Name, Takes};

/// The most values of a keyword.
const MOST: u128 = 4_000_000;

/// The value with which there are too many.
fn excess_fault(values: &[Value]) -> Option<StudyFault>
    ensures { result ≡ first (step_spec.excess_faults values.now) }
{
    let mut sum = 0u128;
    for value in values {
        sum += u128::from(value.count());
        if sum > MOST {
            return Some(StudyFault {
                kind: StudyKind::TooMany,
                span: value.span,
            });
        }
    }
    None
}

/// Whether so many values are what a keyword takes.
fn is_right_count(variables: u32, responses: u32, count: Count, values: u128) -> bool
    ensures { result ≡ step_spec.is_right_count variables responses count values }
{
    let variables = u128::from(variables);
    match count {
        Count::None => values == 0,
        Count::One => values == 1,
        Count::PerVariable => values == variables,
        Count::OneOrPerVariable => values == 1 || values == variables,
        Count::RowsOfVariables => values > 0 && are_rows(values, variables),
        Count::PerResponse => values == u128::from(responses),
        Count::Any => true,
    }
}

/// The keywords of the steps before.
const CHECKED: [Name; 4] = [
    Name::ContinuousDesign,
    Name::ObjectiveFunctions,
    Name::ResponseFunctions,
    Name::AnalysisDrivers,
];

/// The keywords of file names.
const FILES: [Name; 3] = [
    Name::TabularDataFile,
    Name::ParametersFile,
    Name::ResultsFile,
];

/// Strings that are no labels.
fn label_fault(fields: &[Field]) -> Option<StudyFault>
    ensures { result ≡ first (step_spec.label_faults fields.now) }
{
    for field in fields {
        if let Some(fault) = field.label_fault_in() {
            return Some(fault);
        }
    }
    None
}

/// Empty names of files.
fn file_fault(fields: &[Field]) -> Option<StudyFault>
    ensures { result ≡ first (step_spec.file_faults fields.now) }
{
    for field in fields {
        if let Some(fault) = field.file_fault_in() {
            return Some(fault);
        }
    }
    None
}

/// Whether one of these strings is this one.
fn is_string_in(values: &[Value], text: &str) -> bool
    ensures { result ≡ step_spec.is_string_in values.now text.now }
{
    values.iter().any(|value| value.string() == text)
}

/// The first label that stands before in the same list.
fn twice_fault(labels: &[Value]) -> Option<StudyFault>
    ensures { result ≡ first (step_spec.twice_faults labels.now) }
{
    for place in 0..labels.len() {
        let label = &labels[place];
        let before = &labels[..place];
        if is_string_in(before, label.string()) {
            return Some(StudyFault {
                kind: StudyKind::Conflict,
                span: label.span,
            });
        }
    }
    None
}

/// The first label that stands before in its list.
fn twice_fault_of(fields: &[Field]) -> Option<StudyFault>
    ensures { result ≡ first (step_spec.twice_faults_of fields.now) }
{
    for field in fields {
        if let Some(fault) = field.twice_fault_in() {
            return Some(fault);
        }
    }
    None
}

/// Whether so many values are whole rows of so many variables.
fn are_rows(values: u128, variables: u128) -> bool
    ensures { result ≡ step_spec.are_rows values variables }
{
    if variables == 0 {
        values == 0
    } else {
        values % variables == 0
    }
}

impl Field {
    /// An N that isn't from 1 to 4,000,000.
    fn copies_fault(&self) -> Option<StudyFault>
        ensures { result ≡ first (step_spec.copies_faults self.now) }
    {
        at_values(StudyKind::BadWhole, Wrong::Copies, self.values.items())
    }

    /// A value that is no number which the keyword takes.
    fn bad_number_fault(&self) -> Option<StudyFault>
        ensures { result ≡ first (step_spec.bad_number_faults self.now) }
    {
        at_values(
            StudyKind::BadNumber,
            Wrong::Number(self.block, self.entry.name),
            self.values.items(),
        )
    }

    /// The values of a keyword that takes numbers.
    fn number_fault(&self) -> Option<StudyFault>
        ensures { result ≡ first (step_spec.number_faults self.now) }
    {
        self.copies_fault().or(self.bad_number_fault())
    }

    /// The values of a keyword, by what it takes.
    pub fn value_fault(&self) -> Option<StudyFault>
        ensures { result ≡ first (step_spec.value_faults self.now.entry.takes self.now) }
    {
        match self.entry.takes {
            Takes::Wholes(low, high) => {
                at_values(
                    StudyKind::BadWhole,
                    Wrong::Whole(low, high),
                    self.values.items(),
                )
            }
            Takes::Numbers => self.number_fault(),
            _ => None,
        }
    }

    /// A string of a keyword of labels that is none.
    fn label_fault_in(&self) -> Option<StudyFault>
        ensures { result ≡ first (step_spec.at_values_in bad_label_kind step_spec.is_bad_label document_spec.label_names self.now) }
    {
        if is_name_in(&LABELS, self.entry.name) {
            at_values(StudyKind::BadLabel, Wrong::Label, self.values.items())
        } else {
            None
        }
    }

    /// An empty name of a file.
    fn file_fault_in(&self) -> Option<StudyFault>
        ensures { result ≡ first (step_spec.at_values_in bad_label_kind step_spec.is_empty step_spec.file_names self.now) }
    {
        if is_name_in(&FILES, self.entry.name) {
            at_values(StudyKind::BadLabel, Wrong::Empty, self.values.items())
        } else {
            None
        }
    }

    fn twice_fault_in(&self) -> Option<StudyFault>
        ensures { result ≡ first (step_spec.twice_faults_in self.now) }
    {
        if is_name_in(&LABELS, self.entry.name) {
            twice_fault(self.values.items())
        } else {
            None
        }
    }
}

impl Document {
    /// The values of a keyword, and then their count.
    fn entry_fault(&self, field: &Field) -> Option<StudyFault>
        ensures { result ≡ first (step_spec.entry_faults self.now field.now) }
    {
        let values = field.value_fault();
        let excess = excess_fault(field.values.items());
        let right = is_right_count(
            self.variable_count(),
            self.response_count(),
            field.entry.count,
            count_of(field.values.items()),
        );
        values.or(excess.or(wrong_if(!right, StudyKind::WrongCount, field.keyword)))
    }

    fn field_fault(&self, field: &Field) -> Option<StudyFault>
        ensures { result ≡ first (step_spec.field_faults self.now field.now) }
    {
        if is_name_in(&CHECKED, field.entry.name) {
            None
        } else {
            self.entry_fault(field)
        }
    }

    fn first_field_fault(&self, fields: &[Field]) -> Option<StudyFault>
        ensures { result ≡ first (step_spec.faults_of_fields self.now fields.now) }
    {
        for field in fields {
            if let Some(fault) = self.field_fault(field) {
                return Some(fault);
            }
        }
        None
    }

    /// Values and their counts.
    pub fn step5(&self) -> Option<StudyFault>
        ensures { result ≡ first (step_spec.step5 self.now) }
    {
        self.first_field_fault(self.fields.items())
    }

    /// Labels and file names.
    pub fn step6(&self) -> Option<StudyFault>
        ensures { result ≡ first (step_spec.step6 self.now) }
    {
        let fields = self.fields.items();
        let bad = label_fault(fields);
        let twice = twice_fault_of(fields);
        let both = self.at_second(StudyKind::Conflict, Block::Responses, &LABELS);
        bad.or(twice.or(both.or(file_fault(fields))))
    }
}
