// The ninth step: bounds, and initial values within them.
ghost use Rattle.std.specs.Prelude.{◌≡◌, ◌||◌, option_copied, slice_get};
ghost use Rattle.dk_grammar.specs.Lists.{first};
ghost use Rattle.dk_reader.specs.Values as value_spec;
ghost use Rattle.dk_reader.specs.Steps as step_spec;

use crate::document::Document;
use crate::fault::{StudyFault, StudyKind};
use crate::faults::{is_above, wrong_if};
use crate::fields::zero;
use crate::value::Value;
use dk_grammar::{Block, Name};
use dk_lex::Span;
use dk_num::Dec;

/// The value at a place, counted from 0, where each stands as often as it stands for itself.
fn nth_value(values: &[Value], place: u32) -> Option<&Value>
    ensures { option_copied result ≡ slice_get (value_spec.spread values.now) place }
{
    let mut left = place;
    for value in values {
        let copies = value.count();
        if left < copies {
            return Some(value);
        }
        left -= copies;
    }
    None
}

fn is_value_above(value: Option<&Value>, other: Dec) -> bool
    ensures { result ≡ step_spec.is_value_above (option_copied value.entry) other }
{
    value.is_some_and(|value| is_above(value.number(), other))
}

fn is_above_value(other: Dec, value: Option<&Value>) -> bool
    ensures { result ≡ step_spec.is_above_value other (option_copied value.entry) }
{
    value.is_some_and(|value| is_above(other, value.number()))
}

/// Whether a lower bound is above an upper one.
fn are_crossed(lower: Option<&Value>, upper: Option<&Value>) -> bool
    ensures { result ≡ step_spec.are_crossed (option_copied lower.entry) (option_copied upper.entry) }
{
    match lower {
        Some(lower) => is_above_value(lower.number(), upper),
        None => false,
    }
}

fn number_or_zero(value: Option<&Value>) -> Dec
    ensures { result ≡ step_spec.number_or_zero (option_copied value.entry) }
{
    match value {
        Some(value) => value.number(),
        None => zero(),
    }
}

/// Whether an initial value is outside a bound that is given.
fn is_outside(lower: Option<&Value>, upper: Option<&Value>, initial: Option<&Value>) -> bool
    ensures { result ≡ step_spec.is_outside (option_copied lower.entry) (option_copied upper.entry) (option_copied initial.entry) }
{
    let initial = number_or_zero(initial);
    is_value_above(lower, initial) || is_above_value(initial, upper)
}

impl Document {
    /// The value of a component, where a keyword of the variables gives one.
    fn component(&self, name: Name, place: u32) -> Option<&Value>
        ensures { option_copied result ≡ step_spec.component self.now name place }
    {
        nth_value(self.values_at(Block::Variables, name), place)
    }

    /// The span of a value, or that of `variables` where it is a default.
    fn span_at(&self, value: Option<&Value>) -> Span
        ensures { result ≡ step_spec.span_at self.now (option_copied value.entry) }
    {
        match value {
            Some(value) => value.span,
            None => self.block_span(Block::Variables),
        }
    }

    /// A lower bound above its upper bound.
    fn bound_fault(&self, place: u32) -> Option<StudyFault>
        ensures { result ≡ first (step_spec.bound_faults self.now place) }
    {
        let lower = self.component(Name::LowerBounds, place);
        let upper = self.component(Name::UpperBounds, place);
        wrong_if(
            are_crossed(lower, upper),
            StudyKind::Conflict,
            self.span_at(upper),
        )
    }

    /// An initial value outside its bounds.
    fn outside_fault(&self, place: u32) -> Option<StudyFault>
        ensures { result ≡ first (step_spec.outside_faults self.now place) }
    {
        let lower = self.component(Name::LowerBounds, place);
        let upper = self.component(Name::UpperBounds, place);
        let initial = self.component(Name::InitialPoint, place);
        wrong_if(
            is_outside(lower, upper, initial),
            StudyKind::OutsideBounds,
            self.span_at(initial),
        )
    }

    fn all_bound_faults(&self) -> Option<StudyFault>
        ensures { result ≡ first (step_spec.all_bound_faults self.now) }
    {
        for place in 0..self.variable_count() {
            if let Some(fault) = self.bound_fault(place) {
                return Some(fault);
            }
        }
        None
    }

    fn all_outside_faults(&self) -> Option<StudyFault>
        ensures { result ≡ first (step_spec.all_outside_faults self.now) }
    {
        for place in 0..self.variable_count() {
            if let Some(fault) = self.outside_fault(place) {
                return Some(fault);
            }
        }
        None
    }

    /// Whether the method begins at the initial point.
    fn starts_at_point(&self) -> bool
        ensures { result ≡ step_spec.starts_at_point self.now }
    {
        self.method_is(Name::VectorParameterStudy)
            || self.method_is(Name::CenteredParameterStudy)
            || self.method_is(Name::CompassSearch)
    }

    fn start_fault(&self) -> Option<StudyFault>
        ensures { result ≡ first (step_spec.start_faults self.now) }
    {
        if self.starts_at_point() {
            self.all_outside_faults()
        } else {
            None
        }
    }

    /// Bounds, and initial values within them.
    pub fn step9(&self) -> Option<StudyFault>
        ensures { result ≡ first (step_spec.step9 self.now) }
    {
        self.all_bound_faults().or(self.start_fault())
    }
}
