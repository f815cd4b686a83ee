// What is to be evaluated, and how it ends.
ghost use Rattle.std.specs.Prelude.{◌≡◌, IfOk};

use crate::{Counts, Decs, Labels, Text, Units, Words};
use dk_num::Unit;
use std::alloc::{AllocError, Global};

/// An accepted study. Its points are whole numbers of `unit`, `table` is the name of its table (`tabular_data_file`)
/// where it asks for one (`tabular_data`), and `limit` is the greatest number of rows that it can have.
#[derive(Debug, Drop)]
pub struct Study {
    pub unit: Unit,
    pub variables: Variables,
    pub responses: Responses,
    pub method: Method,
    pub interface: Interface,
    pub table: Option<Text>,
    pub limit: u32,
}

/// The design variables: their labels (`descriptors`), their values at the start (`initial_point`), and the bounds that
/// they have (`lower_bounds`, `upper_bounds`).
#[derive(Debug, Drop)]
pub struct Variables {
    pub labels: Labels,
    pub initial: Units,
    pub lower: Option<Units>,
    pub upper: Option<Units>,
}

/// The responses: their labels, and whether they are `objective_functions`; else they are `response_functions`.
#[derive(Debug, Drop)]
pub struct Responses {
    pub labels: Labels,
    pub objectives: bool,
}

/// How a vector study moves: by a step (`step_vector`), or up to a final point (`final_point`).
#[derive(Debug, Drop)]
pub enum Way {
    Step(Units),
    Final(Units),
}

/// The method of a study.
#[derive(Debug, Drop)]
pub enum Method {
    /// `vector_parameter_study`, with `num_steps` steps behind its first point.
    Vector {
        steps: u32,
        way: Way,
    },
    /// `list_parameter_study`: the numbers of its points, one point behind the other (`list_of_points`).
    List {
        points: Units,
    },
    /// `centered_parameter_study`: the step of each variable (`step_vector`), and how many steps it goes to either side
    /// (`steps_per_variable`).
    Centered {
        step: Units,
        counts: Counts,
    },
    /// `multidim_parameter_study`: in how many parts the range of each variable is cut (`partitions`).
    Multidim {
        partitions: Counts,
    },
    /// `compass_search`: the first length of a step and the least (`initial_delta`, `threshold_delta`), and the most
    /// iterations and evaluations (`max_iterations`, `max_function_evaluations`).
    Compass {
        delta: i128,
        threshold: i128,
        iterations: u32,
        evaluations: u32,
    },
}

/// What evaluates a point: the function `rosenbrock` within the program (`direct`), or another program, by the words
/// that call it (`fork`).
#[derive(Debug, Drop)]
pub enum Driver {
    Direct,
    Fork { words: Words },
}

/// The form of a parameters file: the standard one, or that of `aprepro`.
#[derive(Clone, Copy, Debug, PartialEq, Eq)]
pub enum ParamForm {
    Standard,
    Aprepro,
}

/// What happens at an evaluation without a value (`failure_capture`): the study ends (`abort`), the evaluation is
/// tried so many times again (`retry`), or these values stand in its place (`recover`).
#[derive(Debug, Drop)]
pub enum FailRule {
    Abort,
    Retry(u32),
    Recover(Decs),
}

impl FailRule {
    /// An equal rule.
    pub fn copy(&self, alloc: Global) -> Result<FailRule, AllocError>
        ensures { IfOk result (λ rule. rule ≡ self.now) }
    {
        match self {
            FailRule::Abort => Ok(FailRule::Abort),
            FailRule::Retry(times) => Ok(FailRule::Retry(*times)),
            FailRule::Recover(values) => Ok(FailRule::Recover(values.copy(alloc)?)),
        }
    }
}

/// How points are evaluated: by which driver, over files of which names (`parameters_file`, `results_file`) and form
/// (`aprepro`), whether the names get the evaluation's number (`file_tag`) and the files stay (`file_save`), how many
/// evaluations may run at once (`evaluation_concurrency`), and what happens at one without a value.
#[derive(Debug, Drop)]
pub struct Interface {
    pub driver: Driver,
    pub parameters: Text,
    pub results: Text,
    pub form: ParamForm,
    pub tag: bool,
    pub save: bool,
    pub concurrency: u32,
    pub rule: FailRule,
}

/// The labels of a study's variables and responses, which a restart file has to share with it.
#[derive(Debug, Drop)]
pub struct Shape {
    pub variables: Labels,
    pub responses: Labels,
}

impl Study {
    /// The study's labels.
    pub fn shape(&self, alloc: Global) -> Result<Shape, AllocError>
        ensures { IfOk result (λ shape. shape ≡ record { variables = self.now.variables.labels; responses = self.now.responses.labels }) }
    {
        Ok(Shape {
            variables: self.variables.labels.copy(alloc)?,
            responses: self.responses.labels.copy(alloc)?,
        })
    }
}

/// Why a study finished: it has no further point (`Complete`), or a compass search came below its threshold, or to its
/// last iteration, or has no room for the next evaluations.
#[derive(Clone, Copy, Debug, PartialEq, Eq)]
pub enum Why {
    Complete,
    Threshold,
    Iterations,
    Evaluations,
}

/// How a study ended: it finished, or the evaluation of this number (from 1) had no value after so many attempts.
#[derive(Clone, Copy, Debug, PartialEq, Eq)]
pub enum Ending {
    Finished(Why),
    Aborted { evaluation: u32, attempts: u32 },
}
