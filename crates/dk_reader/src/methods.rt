// The seventh and eighth step: the keywords of the method, and those of failures, concurrency and files.
ghost use Rattle.std.specs.Prelude.{◌≡◌, option_copied, map, is_none};
ghost use Rattle.std.specs.List.{list_any};
ghost use Rattle.dk_grammar.specs.Lists.{first};
ghost use Rattle.dk_reader.specs.Steps as step_spec;

use crate::document::{Document, Field};
use crate::fault::{StudyFault, StudyKind};
use crate::faults::{needs_another, wrong_if};
use crate::fields::is_name_in;
use dk_grammar::{Block, Name};

/// The keywords of a method, beside its own and `output`.
fn names_of(method: Name) -> &'static [Name]
    ensures { result.now ≡ step_spec.names_of method }
{
    match method {
        Name::VectorParameterStudy => &[Name::NumSteps, Name::StepVector, Name::FinalPoint],
        Name::ListParameterStudy => &[Name::ListOfPoints],
        Name::CenteredParameterStudy => &[Name::StepVector, Name::StepsPerVariable],
        Name::MultidimParameterStudy => &[Name::Partitions],
        Name::CompassSearch => &[
            Name::InitialDelta,
            Name::ThresholdDelta,
            Name::MaxIterations,
            Name::MaxFunctionEvaluations,
        ],
        _ => &[],
    }
}

/// The keywords of failure rules.
const RULES: [Name; 3] = [Name::Abort, Name::Retry, Name::Recover];

impl Field {
    /// Whether a keyword of the block of methods is of another method.
    fn is_foreign(&self, method: &Field) -> bool
        ensures { result ≡ step_spec.is_foreign method.now self.now }
    {
        let own = self.entry.name == method.entry.name
            || self.entry.name == Name::Output
            || is_name_in(names_of(method.entry.name), self.entry.name);
        Block::Method == self.block && !own
    }

    /// A keyword of another method.
    fn foreign_fault(&self, fields: &[Field]) -> Option<StudyFault>
        ensures { result ≡ first (step_spec.foreign_faults self.now fields.now) }
    {
        match fields.iter().find(|field| field.is_foreign(self)) {
            Some(field) => Some(StudyFault {
                kind: StudyKind::Conflict,
                span: field.keyword,
            }),
            None => None,
        }
    }
}

impl Document {
    /// Whether the block of methods has none of these keywords.
    fn lacks(&self, names: &[Name]) -> bool
        ensures { result ≡ step_spec.lacks self.now names.now }
    {
        self.first_field(Block::Method, names).is_none()
    }

    /// Whether a keyword that the method needs isn't there.
    fn lacks_needed(&self, method: Name) -> bool
        ensures { result ≡ list_any (step_spec.lacks self.now) (step_spec.needs_of method) }
    {
        match method {
            Name::VectorParameterStudy => {
                self.lacks(&[Name::NumSteps]) || self.lacks(&[Name::StepVector, Name::FinalPoint])
            }
            Name::ListParameterStudy => self.lacks(&[Name::ListOfPoints]),
            Name::CenteredParameterStudy => {
                self.lacks(&[Name::StepVector]) || self.lacks(&[Name::StepsPerVariable])
            }
            Name::MultidimParameterStudy => self.lacks(&[Name::Partitions]),
            Name::CompassSearch => {
                self.lacks(&[Name::InitialDelta]) || self.lacks(&[Name::ThresholdDelta])
            }
            _ => false,
        }
    }

    /// Two keywords of which the method needs just one.
    fn both_fault(&self, method: Name) -> Option<StudyFault>
        ensures { result ≡ first (step_spec.both_faults self.now method) }
    {
        if method == Name::VectorParameterStudy {
            self.at_second(
                StudyKind::Conflict,
                Block::Method,
                &[Name::StepVector, Name::FinalPoint],
            )
        } else {
            None
        }
    }

    /// Whether a grid has both bounds.
    fn has_bounds(&self) -> bool
        ensures { result ≡ step_spec.has_bounds self.now }
    {
        self.has(Block::Variables, Name::LowerBounds)
            && self.has(Block::Variables, Name::UpperBounds)
    }

    /// Whether there is just one objective function.
    fn has_objective(&self) -> bool
        ensures { result ≡ step_spec.has_objective self.now }
    {
        self.has(Block::Responses, Name::ObjectiveFunctions) && self.response_count() == 1
    }

    /// What a grid and a search need of other blocks.
    fn other_blocks_fault(&self, method: &Field) -> Option<StudyFault>
        ensures { result ≡ first (step_spec.other_block_faults self.now method.now) }
    {
        let grid = wrong_if(
            method.entry.name == Name::MultidimParameterStudy && !self.has_bounds(),
            StudyKind::Missing,
            self.block_span(Block::Variables),
        );
        grid.or(wrong_if(
            method.entry.name == Name::CompassSearch && !self.has_objective(),
            StudyKind::Conflict,
            method.keyword,
        ))
    }

    /// The keywords of a method.
    fn method_fault(&self, method: &Field) -> Option<StudyFault>
        ensures { result ≡ first (step_spec.method_faults self.now method.now) }
    {
        let foreign = method.foreign_fault(self.fields.items());
        let missing = wrong_if(
            self.lacks_needed(method.entry.name),
            StudyKind::Missing,
            method.keyword,
        );
        let both = self.both_fault(method.entry.name);
        foreign.or(missing.or(both.or(self.other_blocks_fault(method))))
    }

    /// The keywords of the method.
    pub fn step7(&self) -> Option<StudyFault>
        ensures { result ≡ first (step_spec.step7 self.now) }
    {
        match self.method_field() {
            Some(method) => self.method_fault(method),
            None => None,
        }
    }

    /// A rule without `failure_capture`.
    fn uncaptured_rule(&self) -> Option<StudyFault>
        ensures { result ≡ first (step_spec.uncaptured_faults self.now) }
    {
        let captured = self.has(Block::Interface, Name::FailureCapture);
        needs_another(self.first_field(Block::Interface, &RULES), captured)
    }

    /// `failure_capture` without a rule.
    fn capture_without_rule(&self) -> Option<StudyFault>
        ensures { result ≡ first (step_spec.ruleless_faults self.now) }
    {
        let has_rule = self.first_field(Block::Interface, &RULES).is_some();
        let capture = self.field_of(Block::Interface, Name::FailureCapture);
        needs_another(capture, has_rule)
    }

    /// `evaluation_concurrency` without `asynchronous`.
    fn concurrency_unasked(&self) -> Option<StudyFault>
        ensures { result ≡ first (step_spec.unasked_faults self.now) }
    {
        let asked = self.has(Block::Interface, Name::Asynchronous);
        needs_another(
            self.field_of(Block::Interface, Name::EvaluationConcurrency),
            asked,
        )
    }

    /// One name for both files.
    fn same_files(&self) -> Option<StudyFault>
        ensures { result ≡ first (step_spec.same_file_faults self.now) }
    {
        wrong_if(
            self.parameters_name() == self.results_name(),
            StudyKind::Conflict,
            self.block_span(Block::Interface),
        )
    }

    /// Failures, concurrency and file names.
    pub fn step8(&self) -> Option<StudyFault>
        ensures { result ≡ first (step_spec.step8 self.now) }
    {
        let second = self.at_second(StudyKind::Conflict, Block::Interface, &RULES);
        let uncaptured = self.uncaptured_rule();
        let ruleless = self.capture_without_rule();
        let unasked = self.concurrency_unasked();
        second.or(uncaptured.or(ruleless.or(unasked.or(self.same_files()))))
    }

    /// The table's name.
    pub fn step12(&self) -> Option<StudyFault>
        ensures { result ≡ first (step_spec.step12 self.now) }
    {
        let name = self.field_of(Block::Environment, Name::TabularDataFile);
        needs_another(name, self.has(Block::Environment, Name::TabularData))
    }
}
