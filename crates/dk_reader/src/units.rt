// The unit of a study, and its numbers in units.
ghost use Rattle.std.specs.Prelude.{◌≡◌, [], ◌++◌, map, IfOk, OnOk};
ghost use Rattle.std.specs.List.{flat_map};
ghost use Rattle.dk_num.specs.Units.{AreWithin, IsWithin};
ghost use Rattle.dk_grammar.specs.Lists.{first};
ghost use Rattle.dk_reader.specs.Values.{spread};
ghost use Rattle.dk_reader.specs.Values as value_spec;
ghost use Rattle.dk_reader.specs.Document as document_spec;
ghost use Rattle.dk_reader.specs.Study as study_spec;
ghost use Rattle.dk_reader.specs.Steps as step_spec;

use crate::document::{Document, Field};
use crate::fault::{StudyFault, StudyKind};
use crate::faults::is_measured;
use crate::fields::count_of;
use crate::parts::push_copies;
use crate::value::Value;
use dk_grammar::{Block, Name, Takes};
use dk_num::{Dec, Unit, to_units};
use dk_types::Units;
use std::alloc::{AllocError, Global};

/// Adds the numbers that values are.
fn add_numbers(numbers: &mut Vec<Dec>, values: &[Value]) -> Result<(), AllocError>
    ensures { OnOk result (numbers.new.items ≡ numbers.old.items ++ map value_spec.number values.now) }
{
    for value in values {
        numbers.push(value.number())?;
    }
    Ok(())
}

/// Adds the numbers of keywords that are told in units.
fn add_measured(numbers: &mut Vec<Dec>, fields: &[Field]) -> Result<(), AllocError>
    ensures { OnOk result (numbers.new.items ≡ numbers.old.items ++ map value_spec.number (flat_map study_spec.measured_values fields.now)) }
{
    for field in fields {
        add_numbers(numbers, field.measured_values())?;
    }
    Ok(())
}

/// Adds values in units, each as many times as it stands for itself.
fn add_units(units: &mut Vec<i128>, values: &[Value], unit: Unit) -> Result<(), AllocError>
    requires { AreWithin unit.exponent (map value_spec.number values.now) }
    ensures { OnOk result (units.new.items ≡ units.old.items ++ map (study_spec.unit_value unit.exponent) (spread values.now)) }
{
    for value in values {
        push_copies(units, value.unit_value(unit), value.count())?;
    }
    Ok(())
}

/// An empty vector with room for what these values stand for, where so many can be counted.
fn room_for(alloc: Global, values: &[Value]) -> Result<Vec<i128>, AllocError>
    ensures { IfOk result (λ v. v.items ≡ []) }
{
    match usize::try_from(count_of(values)) {
        Ok(count) => Vec::with_capacity(alloc, count),
        Err(_) => Ok(Vec::new(alloc)),
    }
}

/// The first value that is no whole number of units.
fn off_grid(values: &[Value], unit: Unit) -> Option<StudyFault>
    requires { AreWithin unit.exponent (map value_spec.number values.now) }
    ensures { result ≡ first (step_spec.off_grid_faults unit.exponent values.now) }
{
    for value in values {
        if value.is_off_grid(unit) {
            return Some(StudyFault {
                kind: StudyKind::OffGrid,
                span: value.span,
            });
        }
    }
    None
}

/// The same among the values of these keywords that are told in units.
fn off_grid_of(fields: &[Field], unit: Unit) -> Option<StudyFault>
    requires { AreWithin unit.exponent (map value_spec.number (flat_map study_spec.measured_values fields.now)) }
    ensures { result ≡ first (step_spec.off_grid_faults_of unit.exponent fields.now) }
{
    for field in fields {
        if let Some(fault) = off_grid(field.measured_values(), unit) {
            return Some(fault);
        }
    }
    None
}

impl Value {
    /// A value in units.
    fn unit_value(&self, unit: Unit) -> i128
        requires { IsWithin unit.exponent (value_spec.number self.now) }
        ensures { result ≡ study_spec.unit_value unit.exponent self.now }
    {
        match to_units(self.number(), unit) {
            Ok(units) => units,
            Err(_) => 0,
        }
    }

    /// Whether a value is no whole number of units.
    fn is_off_grid(&self, unit: Unit) -> bool
        requires { IsWithin unit.exponent (value_spec.number self.now) }
        ensures { result ≡ step_spec.is_off_grid unit.exponent self.now }
    {
        to_units(self.number(), unit).is_err()
    }
}

impl Field {
    /// Whether a keyword takes numbers.
    fn takes_numbers(&self) -> bool
        ensures { result ≡ study_spec.takes_numbers self.now }
    {
        matches!(self.entry.takes, Takes::Numbers)
    }

    /// The values of a keyword that are told in units: numbers of variables and method.
    fn measured_values(&self) -> &[Value]
        ensures { result.now ≡ study_spec.measured_values self.now }
    {
        if is_measured(self.block) && self.takes_numbers() {
            self.values.items()
        } else {
            &[]
        }
    }
}

impl Document {
    /// All numbers of variables and method that are written, in text order.
    pub fn written_numbers(&self, alloc: Global) -> Result<Vec<Dec>, AllocError>
        ensures { IfOk result (λ v. v.items ≡ map value_spec.number (study_spec.written_values self.now)) }
    {
        let mut numbers = Vec::new(alloc);
        add_measured(&mut numbers, self.fields.items())?;
        Ok(numbers)
    }

    /// The numbers of a keyword, in units.
    pub fn units_at(
        &self,
        alloc: Global,
        block: Block,
        name: Name,
        unit: Unit,
    ) -> Result<Units, AllocError>
        requires has_unit { unit.exponent ≡ study_spec.unit_exponent self.now }
        requires fits_unit { AreWithin unit.exponent (map value_spec.number (document_spec.values_at self.now block name)) }
        ensures { IfOk result (λ u. u ≡ study_spec.units_at self.now block name) }
    {
        let values = self.values_at(block, name);
        let mut units = room_for(alloc, values)?;
        add_units(&mut units, values, unit)?;
        Ok(Units::of_vec(units))
    }

    /// The unit: each number of variables and method is a whole number of units.
    pub fn step11(&self, unit: Unit) -> Option<StudyFault>
        requires has_unit { unit.exponent ≡ study_spec.unit_exponent self.now }
        requires fits_unit { AreWithin unit.exponent (map value_spec.number (study_spec.written_values self.now)) }
        ensures { result ≡ first (step_spec.step11 self.now) }
    {
        off_grid_of(self.fields.items(), unit)
    }
}
