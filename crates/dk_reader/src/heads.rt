// The first four steps: the method, the numbers of variables and responses, and the driver.
ghost use Rattle.std.specs.Prelude.{◌≡◌, option_copied};
ghost use Rattle.dk_grammar.specs.Lists.{first};
ghost use Rattle.dk_reader.specs.Steps as step_spec;

use crate::document::{Document, Field};
use crate::fault::{StudyFault, StudyKind};
use crate::faults::{Wrong, at_values, wrong_if};
use crate::fields::{FUNCTIONS, METHODS, count_of};
use dk_grammar::{Block, Name};

fn size_fault_of(field: Option<&Field>) -> Option<StudyFault>
    ensures { result ≡ first (step_spec.of_field step_spec.size_faults (option_copied field.entry)) }
{
    match field {
        Some(field) => field.size_fault(),
        None => None,
    }
}

/// One driver, of more than blanks.
fn driver_fault(field: Option<&Field>) -> Option<StudyFault>
    ensures { result ≡ first (step_spec.of_field step_spec.driver_faults (option_copied field.entry)) }
{
    match field {
        Some(field) => {
            let values = field.values.items();
            let none = wrong_if(values.is_empty(), StudyKind::WrongCount, field.keyword);
            let several = wrong_if(values.len() > 1, StudyKind::Unsupported, field.keyword);
            let blank = at_values(StudyKind::WrongCount, Wrong::Blank, values);
            none.or(several.or(blank))
        }
        None => None,
    }
}

impl Field {
    /// One value, of those that the keyword takes.
    fn size_fault(&self) -> Option<StudyFault>
        ensures { result ≡ first (step_spec.size_faults self.now) }
    {
        let values = self.values.items();
        let count = wrong_if(count_of(values) != 1, StudyKind::WrongCount, self.keyword);
        count.or(self.value_fault())
    }
}

impl Document {
    /// One method.
    pub fn step1(&self) -> Option<StudyFault>
        ensures { result ≡ first (step_spec.step1 self.now) }
    {
        self.one_of(Block::Method, &METHODS)
    }

    /// The number of variables.
    pub fn step2(&self) -> Option<StudyFault>
        ensures { result ≡ first (step_spec.step2 self.now) }
    {
        let missing = self.needed(Block::Variables, Name::ContinuousDesign);
        let field = self.field_of(Block::Variables, Name::ContinuousDesign);
        missing.or(size_fault_of(field))
    }

    /// The number of responses.
    pub fn step3(&self) -> Option<StudyFault>
        ensures { result ≡ first (step_spec.step3 self.now) }
    {
        let one = self.one_of(Block::Responses, &FUNCTIONS);
        let field = self.first_field(Block::Responses, &FUNCTIONS);
        one.or(size_fault_of(field))
    }

    /// Whether there are two variables and one response.
    fn fits_rosenbrock(&self) -> bool
        ensures { result ≡ step_spec.fits_rosenbrock self.now }
    {
        self.variable_count() == 2 && self.response_count() == 1
    }

    /// Another driver than `rosenbrock`.
    fn other_driver(&self) -> Option<StudyFault>
        ensures { result ≡ first (step_spec.other_driver_faults self.now) }
    {
        let drivers = self.values_at(Block::Interface, Name::AnalysisDrivers);
        at_values(StudyKind::Unsupported, Wrong::OtherDriver, drivers)
    }

    /// What a direct call is checked for: its driver, and two variables and one response.
    fn direct_fault(&self, field: &Field) -> Option<StudyFault>
        ensures { result ≡ first (step_spec.direct_faults self.now field.now) }
    {
        let fits = self.fits_rosenbrock();
        self.other_driver()
            .or(wrong_if(!fits, StudyKind::Conflict, field.keyword))
    }

    fn direct_fault_of(&self, field: Option<&Field>) -> Option<StudyFault>
        ensures { result ≡ first (step_spec.of_field (step_spec.direct_faults self.now) (option_copied field.entry)) }
    {
        match field {
            Some(field) => self.direct_fault(field),
            None => None,
        }
    }

    /// The driver, and how it is called.
    pub fn step4(&self) -> Option<StudyFault>
        ensures { result ≡ first (step_spec.step4 self.now) }
    {
        let missing = self.needed(Block::Interface, Name::AnalysisDrivers);
        let driver = driver_fault(self.field_of(Block::Interface, Name::AnalysisDrivers));
        let call = self.one_of(Block::Interface, &[Name::Fork, Name::Direct]);
        let direct = self.direct_fault_of(self.field_of(Block::Interface, Name::Direct));
        missing.or(driver.or(call.or(direct)))
    }
}
