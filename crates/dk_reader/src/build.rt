// The study that a document says.
ghost use Rattle.std.specs.Prelude.{◌≡◌, IfOk};
ghost use Rattle.dk_reader.specs.Study as study_spec;
ghost use Rattle.dk_reader.specs.Measured.{IsMeasured, AreMeasured};

use crate::document::Document;
use crate::parts::{counts_of, numbers_of, words_of};
use dk_grammar::{Block, Name};
use dk_num::Unit;
use dk_types::{
    Counts, Driver, FailRule, Interface, Method, ParamForm, Responses, Study, Text, Units,
    Variables, Way,
};
use std::alloc::{AllocError, Global};

impl Document {
    /// The initial point, 0 for each variable by default.
    fn initial_units(&self, alloc: Global, unit: Unit) -> Result<Units, AllocError>
        requires has_unit { unit.exponent ≡ study_spec.unit_exponent self.now }
        requires fits_unit { AreMeasured unit.exponent self.now }
        ensures { IfOk result (λ u. u ≡ study_spec.initial_units self.now) }
    {
        if self.has(Block::Variables, Name::InitialPoint) {
            self.units_at(alloc, Block::Variables, Name::InitialPoint, unit)
        } else {
            let zeros = vec![in alloc; 0i128; self.variable_count() as usize]?;
            Ok(Units::of_vec(zeros))
        }
    }

    /// Bounds, where they are written.
    fn units_if(&self, alloc: Global, name: Name, unit: Unit) -> Result<Option<Units>, AllocError>
        requires has_unit { unit.exponent ≡ study_spec.unit_exponent self.now }
        requires fits_unit { IsMeasured unit.exponent self.now Block.Variables name }
        ensures { IfOk result (λ u. u ≡ study_spec.units_if self.now name) }
    {
        if self.has(Block::Variables, name) {
            let bounds = self.units_at(alloc, Block::Variables, name, unit)?;
            Ok(Some(bounds))
        } else {
            Ok(None)
        }
    }

    fn variables_of(&self, alloc: Global, unit: Unit) -> Result<Variables, AllocError>
        requires has_unit { unit.exponent ≡ study_spec.unit_exponent self.now }
        requires fits_unit { AreMeasured unit.exponent self.now }
        ensures { IfOk result (λ v. v ≡ study_spec.variables_of self.now) }
    {
        Ok(Variables {
            labels: self.variable_labels(alloc)?,
            initial: self.initial_units(alloc, unit)?,
            lower: self.units_if(alloc, Name::LowerBounds, unit)?,
            upper: self.units_if(alloc, Name::UpperBounds, unit)?,
        })
    }

    fn responses_of(&self, alloc: Global) -> Result<Responses, AllocError>
        ensures { IfOk result (λ r. r ≡ study_spec.responses_of self.now) }
    {
        Ok(Responses {
            labels: self.response_labels(alloc)?,
            objectives: self.has(Block::Responses, Name::ObjectiveFunctions),
        })
    }

    /// The numbers of a keyword of the method.
    fn method_units(&self, alloc: Global, name: Name, unit: Unit) -> Result<Units, AllocError>
        requires has_unit { unit.exponent ≡ study_spec.unit_exponent self.now }
        requires fits_unit { IsMeasured unit.exponent self.now Block.Method name }
        ensures { IfOk result (λ u. u ≡ study_spec.units_at self.now Block.Method name) }
    {
        self.units_at(alloc, Block::Method, name, unit)
    }

    /// The one number of a keyword of the method.
    fn unit_at(&self, alloc: Global, name: Name, unit: Unit) -> Result<i128, AllocError>
        requires has_unit { unit.exponent ≡ study_spec.unit_exponent self.now }
        requires fits_unit { IsMeasured unit.exponent self.now Block.Method name }
        ensures { IfOk result (λ u. u ≡ study_spec.unit_at self.now name) }
    {
        let units = self.method_units(alloc, name, unit)?;
        match units.items() {
            [first, ..] => Ok(*first),
            [] => Ok(0),
        }
    }

    /// The whole numbers of a keyword of the method.
    fn counts_at(&self, alloc: Global, name: Name) -> Result<Counts, AllocError>
        ensures { IfOk result (λ c. c ≡ study_spec.counts_at self.now name) }
    {
        counts_of(alloc, self.values_at(Block::Method, name))
    }

    /// One count for all variables, or one for each.
    fn each_count(&self, alloc: Global, counts: Counts) -> Result<Counts, AllocError>
        ensures { IfOk result (λ c. c ≡ study_spec.each_count self.now counts) }
    {
        match counts.items() {
            [count] => {
                let all = vec![in alloc; *count; self.variable_count() as usize]?;
                Ok(Counts::of_vec(all))
            }
            _ => Ok(counts),
        }
    }

    fn way_of(&self, alloc: Global, unit: Unit) -> Result<Way, AllocError>
        requires has_unit { unit.exponent ≡ study_spec.unit_exponent self.now }
        requires fits_unit { AreMeasured unit.exponent self.now }
        ensures { IfOk result (λ w. w ≡ study_spec.way_of self.now) }
    {
        if self.has(Block::Method, Name::StepVector) {
            let step = self.method_units(alloc, Name::StepVector, unit)?;
            Ok(Way::Step(step))
        } else {
            let last = self.method_units(alloc, Name::FinalPoint, unit)?;
            Ok(Way::Final(last))
        }
    }

    fn vector_study(&self, alloc: Global, unit: Unit) -> Result<Method, AllocError>
        requires has_unit { unit.exponent ≡ study_spec.unit_exponent self.now }
        requires fits_unit { AreMeasured unit.exponent self.now }
        ensures { IfOk result (λ m. m ≡ study_spec.vector_study self.now) }
    {
        Ok(Method::Vector {
            steps: self.whole_at(Block::Method, Name::NumSteps, 0),
            way: self.way_of(alloc, unit)?,
        })
    }

    fn list_study(&self, alloc: Global, unit: Unit) -> Result<Method, AllocError>
        requires has_unit { unit.exponent ≡ study_spec.unit_exponent self.now }
        requires fits_unit { AreMeasured unit.exponent self.now }
        ensures { IfOk result (λ m. m ≡ study_spec.list_study self.now) }
    {
        Ok(Method::List {
            points: self.method_units(alloc, Name::ListOfPoints, unit)?,
        })
    }

    fn centered_study(&self, alloc: Global, unit: Unit) -> Result<Method, AllocError>
        requires has_unit { unit.exponent ≡ study_spec.unit_exponent self.now }
        requires fits_unit { AreMeasured unit.exponent self.now }
        ensures { IfOk result (λ m. m ≡ study_spec.centered_study self.now) }
    {
        let counts = self.counts_at(alloc, Name::StepsPerVariable)?;
        Ok(Method::Centered {
            step: self.method_units(alloc, Name::StepVector, unit)?,
            counts: self.each_count(alloc, counts)?,
        })
    }

    fn grid_study(&self, alloc: Global) -> Result<Method, AllocError>
        ensures { IfOk result (λ m. m ≡ study_spec.grid_study self.now) }
    {
        Ok(Method::Multidim {
            partitions: self.counts_at(alloc, Name::Partitions)?,
        })
    }

    fn compass_search(&self, alloc: Global, unit: Unit) -> Result<Method, AllocError>
        requires has_unit { unit.exponent ≡ study_spec.unit_exponent self.now }
        requires fits_unit { AreMeasured unit.exponent self.now }
        ensures { IfOk result (λ m. m ≡ study_spec.compass_search self.now) }
    {
        Ok(Method::Compass {
            delta: self.unit_at(alloc, Name::InitialDelta, unit)?,
            threshold: self.unit_at(alloc, Name::ThresholdDelta, unit)?,
            iterations: self.whole_at(Block::Method, Name::MaxIterations, 1000),
            evaluations: self.whole_at(Block::Method, Name::MaxFunctionEvaluations, 1000),
        })
    }

    fn method_of(&self, alloc: Global, unit: Unit) -> Result<Method, AllocError>
        requires has_unit { unit.exponent ≡ study_spec.unit_exponent self.now }
        requires fits_unit { AreMeasured unit.exponent self.now }
        ensures { IfOk result (λ m. m ≡ study_spec.method_of self.now) }
    {
        if self.method_is(Name::VectorParameterStudy) {
            self.vector_study(alloc, unit)
        } else if self.method_is(Name::ListParameterStudy) {
            self.list_study(alloc, unit)
        } else if self.method_is(Name::CenteredParameterStudy) {
            self.centered_study(alloc, unit)
        } else if self.method_is(Name::MultidimParameterStudy) {
            self.grid_study(alloc)
        } else {
            self.compass_search(alloc, unit)
        }
    }

    fn rule_of(&self, alloc: Global) -> Result<FailRule, AllocError>
        ensures { IfOk result (λ r. r ≡ study_spec.rule_of self.now) }
    {
        if self.has(Block::Interface, Name::Retry) {
            let times = self.whole_at(Block::Interface, Name::Retry, 0);
            Ok(FailRule::Retry(times))
        } else if self.has(Block::Interface, Name::Recover) {
            let values = self.values_at(Block::Interface, Name::Recover);
            Ok(FailRule::Recover(numbers_of(alloc, values)?))
        } else {
            Ok(FailRule::Abort)
        }
    }

    fn driver_of(&self, alloc: Global) -> Result<Driver, AllocError>
        ensures { IfOk result (λ d. d ≡ study_spec.driver_of self.now) }
    {
        if self.has(Block::Interface, Name::Direct) {
            return Ok(Driver::Direct);
        }
        let call = self.string_at(Block::Interface, Name::AnalysisDrivers, "");
        Ok(Driver::Fork {
            words: words_of(alloc, call)?,
        })
    }

    /// One at a time, or as many as are asked for, 64 by default.
    fn concurrency_of(&self) -> u32
        ensures { result ≡ study_spec.concurrency_of self.now }
    {
        if self.has(Block::Interface, Name::Asynchronous) {
            self.whole_at(Block::Interface, Name::EvaluationConcurrency, 64)
        } else {
            1
        }
    }

    fn form_of(&self) -> ParamForm
        ensures { result ≡ study_spec.form_of self.now }
    {
        if self.has(Block::Interface, Name::Aprepro) {
            ParamForm::Aprepro
        } else {
            ParamForm::Standard
        }
    }

    fn interface_of(&self, alloc: Global) -> Result<Interface, AllocError>
        ensures { IfOk result (λ i. i ≡ study_spec.interface_of self.now) }
    {
        Ok(Interface {
            driver: self.driver_of(alloc)?,
            parameters: Text::of(alloc, self.parameters_name())?,
            results: Text::of(alloc, self.results_name())?,
            form: self.form_of(),
            tag: self.has(Block::Interface, Name::FileTag),
            save: self.has(Block::Interface, Name::FileSave),
            concurrency: self.concurrency_of(),
            rule: self.rule_of(alloc)?,
        })
    }

    fn table_of(&self, alloc: Global) -> Result<Option<Text>, AllocError>
        ensures { IfOk result (λ t. t ≡ study_spec.table_of self.now) }
    {
        if self.has(Block::Environment, Name::TabularData) {
            let name = self.string_at(
                Block::Environment,
                Name::TabularDataFile,
                "dakota_tabular.dat",
            );
            Ok(Some(Text::of(alloc, name)?))
        } else {
            Ok(None)
        }
    }

    /// The study that a document without faults says.
    #[tactic(auto, unfolding(crate::specs::Study::study_of))]
    pub fn build(&self, alloc: Global, unit: Unit, limit: u32) -> Result<Study, AllocError>
        requires has_unit { unit.exponent ≡ study_spec.unit_exponent self.now }
        requires has_limit { limit ≡ study_spec.limit self.now }
        requires fits_unit { AreMeasured unit.exponent self.now }
        ensures { IfOk result (λ s. s ≡ study_spec.study_of self.now) }
    {
        Ok(Study {
            unit,
            variables: self.variables_of(alloc, unit)?,
            responses: self.responses_of(alloc)?,
            method: self.method_of(alloc, unit)?,
            interface: self.interface_of(alloc)?,
            table: self.table_of(alloc)?,
            limit,
        })
    }
}
