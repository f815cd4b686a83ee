// The steps in their order, and the study of a document that has no fault.
ghost use Rattle.std.specs.Prelude.{◌≡◌, map};
ghost use Rattle.std.specs.List.{flat_map};
ghost use Rattle.dk_num.specs.Units.{AreWithin};
ghost use Rattle.dk_grammar.specs.Lists.{first};
ghost use Rattle.dk_reader.specs.Values as value_spec;
ghost use Rattle.dk_reader.specs.Document.{AreNamed};
ghost use Rattle.dk_reader.specs.Study as study_spec;
ghost use Rattle.dk_reader.specs.Checks.{faults_of, faults_before_unit, faults_from_unit, DocumentRead};

use crate::document::Document;
use crate::fault::{ReadRefusal, StudyFault};
use dk_num::{Unit, unit_of};
use dk_types::Study;
use std::alloc::Global;

/// The steps that need no unit.
pub enum Step {
    Method,
    Variables,
    Responses,
    Driver,
    Values,
    Labels,
    Keywords,
    Rules,
    Bounds,
    Size,
}

/// The steps before the unit's, in order.
const STEPS: [Step; 10] = [
    Step::Method,
    Step::Variables,
    Step::Responses,
    Step::Driver,
    Step::Values,
    Step::Labels,
    Step::Keywords,
    Step::Rules,
    Step::Bounds,
    Step::Size,
];

impl Document {
    fn fault_of(&self, step: &Step) -> Option<StudyFault>
        ensures { result ≡ first (faults_of self.now step.now) }
    {
        match step {
            Step::Method => self.step1(),
            Step::Variables => self.step2(),
            Step::Responses => self.step3(),
            Step::Driver => self.step4(),
            Step::Values => self.step5(),
            Step::Labels => self.step6(),
            Step::Keywords => self.step7(),
            Step::Rules => self.step8(),
            Step::Bounds => self.step9(),
            Step::Size => self.step10(),
        }
    }

    fn first_fault_among(&self, steps: &[Step]) -> Option<StudyFault>
        ensures { result ≡ first (flat_map (faults_of self.now) steps.now) }
    {
        for step in steps {
            if let Some(fault) = self.fault_of(step) {
                return Some(fault);
            }
        }
        None
    }

    /// The first fault of the steps before the unit's.
    fn first_fault(&self) -> Option<StudyFault>
        ensures { result ≡ first (faults_before_unit self.now) }
    {
        self.first_fault_among(&STEPS)
    }

    /// The first fault of the unit's step and the last.
    fn last_fault(&self, unit: Unit) -> Option<StudyFault>
        requires has_unit { unit.exponent ≡ study_spec.unit_exponent self.now }
        requires fits_unit { AreWithin unit.exponent (map value_spec.number (study_spec.written_values self.now)) }
        ensures { result ≡ first (faults_from_unit self.now) }
    {
        self.step11(unit).or(self.step12())
    }

    /// The study of a document, or its first fault.
    pub fn study_of(&self, alloc: Global) -> Result<Study, ReadRefusal>
        requires { AreNamed self.now.fields }
        ensures { DocumentRead self.now result }
    {
        if let Some(fault) = self.first_fault() {
            return Err(ReadRefusal::Study(fault));
        }
        let numbers = self.written_numbers(alloc)?;
        let unit = unit_of(&numbers);
        if let Some(fault) = self.last_fault(unit) {
            return Err(ReadRefusal::Study(fault));
        }
        let study = self.build(alloc, unit, self.limit_of())?;
        Ok(study)
    }
}
