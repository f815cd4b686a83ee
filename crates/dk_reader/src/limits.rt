// The tenth step: how many rows a study can have, and how many numbers stand in them.
ghost use Rattle.std.specs.Prelude.{◌≡◌, ◌≤◌, ◌+◌, ◌*◌, ◌/◌, length, map, min, replicate, sum, option_copied};
ghost use Rattle.dk_grammar.specs.Lists.{first};
ghost use Rattle.dk_grammar.specs.declared.words.Block.TheVariants.{Method as method_block};
ghost use Rattle.dk_grammar.specs.declared.words.Name.TheVariants as names;
ghost use Rattle.dk_types.specs.Limits as limit_spec;
ghost use Rattle.dk_reader.specs.Values.{spread};
ghost use Rattle.dk_reader.specs.Values as value_spec;
ghost use Rattle.dk_reader.specs.Document as document_spec;
ghost use Rattle.dk_reader.specs.Study as study_spec;
ghost use Rattle.dk_reader.specs.Steps as step_spec;

use crate::document::{Document, Field};
use crate::fault::{StudyFault, StudyKind};
use crate::faults::wrong_if;
use crate::fields::count_of;
use crate::value::Value;
use dk_grammar::{Block, Name};
use dk_lex::Span;

/// Up to here rows are counted: one more than a study may have.
const ENOUGH: u64 = 100_001;

/// The most numbers in all rows of a study.
const MOST_NUMBERS: u64 = 4_000_000;

/// A number, up to 100,001.
fn up_to(number: u128) -> u64
    ensures { result ≡ min number 100001 }
{
    number.min(u128::from(ENOUGH)) as u64
}

/// How many rows of so many variables there are.
fn row_count(numbers: u128, variables: u32) -> u128
    ensures { result ≡ numbers / variables }
{
    if variables == 0 {
        0
    } else {
        numbers / u128::from(variables)
    }
}

/// The sum of the whole numbers that values are, each as many times as it stands for itself.
fn sum_of(values: &[Value]) -> u128
    ensures { result ≡ sum (map value_spec.whole (spread values.now)) }
{
    let mut sum = 0u128;
    for value in values {
        sum += u128::from(value.count()) * u128::from(value.whole());
    }
    sum
}

/// A grid of so many points for more variables, each cut in so many parts, up to 100,001.
fn grown_grid(points: u64, parts: u32, variables: u32) -> u64
    requires { points ≤ 100001 }
    ensures { result ≡ min (study_spec.grid_from points (replicate variables parts)) 100001 }
{
    if parts == 0 {
        return points;
    }
    let mut grown = points;
    for _ in 0..variables {
        if grown == ENOUGH {
            return ENOUGH;
        }
        grown = (grown * (u64::from(parts) + 1)).min(ENOUGH);
    }
    grown
}

/// The points of a grid whose variables are cut in so many parts, up to 100,001.
fn grid_size(partitions: &[Value]) -> u64
    ensures { result ≡ min (limit_spec.grid_size (map value_spec.whole (spread partitions.now))) 100001 }
{
    let mut points = 1u64;
    for value in partitions {
        points = grown_grid(points, value.whole(), value.count());
    }
    points
}

/// The keywords that say how many points there are.
const SIZES: [Name; 4] = [
    Name::NumSteps,
    Name::ListOfPoints,
    Name::StepsPerVariable,
    Name::Partitions,
];

impl Document {
    /// The points of a vector study: so many steps behind the first.
    fn vector_size(&self) -> u64
        ensures { result ≡ min (document_spec.whole_at self.now method_block names.NumSteps 0 + 1) 100001 }
    {
        let steps = self.whole_at(Block::Method, Name::NumSteps, 0);
        (u64::from(steps) + 1).min(ENOUGH)
    }

    /// The points of a list, up to 100,001.
    fn list_size(&self) -> u64
        ensures { result ≡ min (length (study_spec.units_at self.now method_block names.ListOfPoints) / document_spec.variable_count self.now) 100001 }
    {
        let numbers = count_of(self.values_at(Block::Method, Name::ListOfPoints));
        up_to(row_count(numbers, self.variable_count()))
    }

    /// The steps to one side of a center, up to 100,001: one count for all variables, or one for each.
    fn steps_to_a_side(&self) -> u64
        ensures { result ≡ min (sum (study_spec.each_count self.now (study_spec.counts_at self.now names.StepsPerVariable))) 100001 }
    {
        let counts = self.values_at(Block::Method, Name::StepsPerVariable);
        let steps = up_to(sum_of(counts));
        if count_of(counts) == 1 {
            (u64::from(self.variable_count()) * steps).min(ENOUGH)
        } else {
            steps
        }
    }

    /// The points of a centered study, up to 100,001: the center, and the steps to both sides.
    fn centered_size(&self) -> u64
        ensures { result ≡ min (1 + 2 * sum (study_spec.each_count self.now (study_spec.counts_at self.now names.StepsPerVariable))) 100001 }
    {
        (1 + 2 * self.steps_to_a_side()).min(ENOUGH)
    }

    /// The most evaluations of a compass search, up to 100,001.
    fn compass_size(&self) -> u64
        ensures { result ≡ min (document_spec.whole_at self.now method_block names.MaxFunctionEvaluations 1000) 100001 }
    {
        let evaluations = self.whole_at(Block::Method, Name::MaxFunctionEvaluations, 1000);
        u64::from(evaluations).min(ENOUGH)
    }

    /// The greatest number of rows that a study can have, up to 100,001.
    pub fn limit_up_to(&self) -> u64
        ensures { result ≡ min (study_spec.limit self.now) 100001 }
    {
        if self.method_is(Name::VectorParameterStudy) {
            return self.vector_size();
        }
        if self.method_is(Name::ListParameterStudy) {
            return self.list_size();
        }
        if self.method_is(Name::CenteredParameterStudy) {
            return self.centered_size();
        }
        if self.method_is(Name::MultidimParameterStudy) {
            return grid_size(self.values_at(Block::Method, Name::Partitions));
        }
        self.compass_size()
    }

    /// The keyword that says how many rows there are.
    fn limit_field(&self) -> Option<&Field>
        ensures { option_copied result ≡ step_spec.limit_field self.now }
    {
        if self.method_is(Name::CompassSearch) {
            self.method_field()
        } else {
            self.first_field(Block::Method, &SIZES)
        }
    }

    /// Where that keyword stands.
    fn limit_span(&self) -> Span
        ensures { result ≡ step_spec.limit_span self.now }
    {
        match self.limit_field() {
            Some(field) => field.keyword,
            None => self.block_span(Block::Method),
        }
    }

    /// Whether there are too many rows, or numbers in them.
    fn is_too_great(&self) -> bool
        ensures { result ≡ step_spec.is_too_great self.now }
    {
        let rows = self.limit_up_to();
        let width = u64::from(self.variable_count()) + u64::from(self.response_count());
        rows == ENOUGH || rows * width > MOST_NUMBERS
    }

    /// The size of the study.
    pub fn step10(&self) -> Option<StudyFault>
        ensures { result ≡ first (step_spec.step10 self.now) }
    {
        wrong_if(self.is_too_great(), StudyKind::TooMany, self.limit_span())
    }

    /// The greatest number of rows that a study of a right size can have.
    pub fn limit_of(&self) -> u32
        requires { study_spec.limit self.now ≤ 100000 }
        ensures { result ≡ study_spec.limit self.now }
    {
        self.limit_up_to() as u32
    }
}
