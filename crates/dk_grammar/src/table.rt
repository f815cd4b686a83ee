// The table of words.
ghost use Rattle.std.specs.Prelude.{◌≡◌, map};
ghost use Rattle.dk_grammar.specs.Table.{block_table, keyword_table, refused_table, mode_table};

use crate::words::{Block, Count, Entry, Name, Takes};

/// A block, and its name as it is spelled.
#[derive(Clone, Copy)]
pub struct BlockWord {
    pub block: Block,
    pub word: &'static [u8],
}

/// A keyword of a block as it is spelled, and what it takes.
#[derive(Clone, Copy)]
pub struct Keyword {
    pub block: Block,
    pub word: &'static [u8],
    pub entry: Entry,
}

/// Rows of keywords: the block, the keyword as it is spelled, its name, which values it takes and how many.
macro_rules! keywords {
    ($($block:ident $word:literal $name:ident ($takes:expr, $count:ident);)*) => {
        &[$(Keyword {
            block: Block::$block,
            word: $word,
            entry: Entry {
                name: Name::$name,
                takes: $takes,
                count: Count::$count,
            },
        }),*]
    };
}

const BLOCKS: &[BlockWord] = &[
    BlockWord {
        block: Block::Environment,
        word: b"environment",
    },
    BlockWord {
        block: Block::Method,
        word: b"method",
    },
    BlockWord {
        block: Block::Model,
        word: b"model",
    },
    BlockWord {
        block: Block::Variables,
        word: b"variables",
    },
    BlockWord {
        block: Block::Interface,
        word: b"interface",
    },
    BlockWord {
        block: Block::Responses,
        word: b"responses",
    },
];

const KEYWORDS: &[Keyword] = keywords! {
    Environment b"tabular_data" TabularData (Takes::Nothing, None);
    Environment b"tabular_data_file" TabularDataFile (Takes::Strings, One);
    Method b"vector_parameter_study" VectorParameterStudy (Takes::Nothing, None);
    Method b"list_parameter_study" ListParameterStudy (Takes::Nothing, None);
    Method b"centered_parameter_study" CenteredParameterStudy (Takes::Nothing, None);
    Method b"multidim_parameter_study" MultidimParameterStudy (Takes::Nothing, None);
    Method b"compass_search" CompassSearch (Takes::Nothing, None);
    Method b"num_steps" NumSteps (Takes::Wholes(0, 10000), One);
    Method b"step_vector" StepVector (Takes::Numbers, PerVariable);
    Method b"final_point" FinalPoint (Takes::Numbers, PerVariable);
    Method b"list_of_points" ListOfPoints (Takes::Numbers, RowsOfVariables);
    Method b"steps_per_variable" StepsPerVariable (Takes::Wholes(0, 10000), OneOrPerVariable);
    Method b"partitions" Partitions (Takes::Wholes(1, 10000), PerVariable);
    Method b"initial_delta" InitialDelta (Takes::Numbers, One);
    Method b"threshold_delta" ThresholdDelta (Takes::Numbers, One);
    Method b"max_iterations" MaxIterations (Takes::Wholes(0, 10000), One);
    Method b"max_function_evaluations" MaxFunctionEvaluations (Takes::Wholes(1, 100000), One);
    Method b"output" Output (Takes::Mode, One);
    Model b"single" Single (Takes::Nothing, None);
    Variables b"continuous_design" ContinuousDesign (Takes::Wholes(1, 100), One);
    Variables b"initial_point" InitialPoint (Takes::Numbers, PerVariable);
    Variables b"lower_bounds" LowerBounds (Takes::Numbers, PerVariable);
    Variables b"upper_bounds" UpperBounds (Takes::Numbers, PerVariable);
    Variables b"descriptors" Descriptors (Takes::Strings, PerVariable);
    Interface b"analysis_drivers" AnalysisDrivers (Takes::Strings, Any);
    Interface b"fork" Fork (Takes::Nothing, None);
    Interface b"direct" Direct (Takes::Nothing, None);
    Interface b"parameters_file" ParametersFile (Takes::Strings, One);
    Interface b"results_file" ResultsFile (Takes::Strings, One);
    Interface b"file_tag" FileTag (Takes::Nothing, None);
    Interface b"file_save" FileSave (Takes::Nothing, None);
    Interface b"aprepro" Aprepro (Takes::Nothing, None);
    Interface b"asynchronous" Asynchronous (Takes::Nothing, None);
    Interface b"evaluation_concurrency" EvaluationConcurrency (Takes::Wholes(1, 64), One);
    Interface b"failure_capture" FailureCapture (Takes::Nothing, None);
    Interface b"abort" Abort (Takes::Nothing, None);
    Interface b"retry" Retry (Takes::Wholes(1, 1000), One);
    Interface b"recover" Recover (Takes::Numbers, PerResponse);
    Responses b"objective_functions" ObjectiveFunctions (Takes::Wholes(1, 100), One);
    Responses b"response_functions" ResponseFunctions (Takes::Wholes(1, 100), One);
    Responses b"descriptors" Descriptors (Takes::Strings, PerResponse);
    Responses b"response_descriptors" ResponseDescriptors (Takes::Strings, PerResponse);
    Responses b"no_gradients" NoGradients (Takes::Nothing, None);
    Responses b"no_hessians" NoHessians (Takes::Nothing, None);
};

const REFUSED: &[&[u8]] = &[
    b"continuation",
    b"system",
    b"python",
    b"matlab",
    b"scilab",
    b"grid",
    b"batch",
    b"input_filter",
    b"output_filter",
    b"analysis_components",
    b"analysis_concurrency",
    b"deactivate",
    b"verbatim",
    b"work_directory",
    b"analytic_gradients",
    b"numerical_gradients",
    b"mixed_gradients",
    b"analytic_hessians",
    b"numerical_hessians",
    b"quasi_hessians",
    b"mixed_hessians",
    b"calibration_terms",
    b"nonlinear_inequality_constraints",
    b"nonlinear_equality_constraints",
    b"weights",
    b"discrete_design_range",
    b"discrete_design_set",
    b"continuous_state",
    b"normal_uncertain",
    b"uniform_uncertain",
    b"surrogate",
    b"nested",
    b"freeform",
    b"output_precision",
    b"import_points_file",
    b"id_method",
    b"id_model",
    b"id_variables",
    b"id_interface",
    b"id_responses",
    b"model_pointer",
    b"variables_pointer",
    b"interface_pointer",
    b"responses_pointer",
    b"method_pointer",
    b"top_method_pointer",
];

const MODES: &[&[u8]] = &[b"silent", b"quiet", b"normal", b"verbose", b"debug"];

/// The blocks with their names.
pub fn blocks() -> &'static [BlockWord]
    ensures { map (λ b. record { block = b.block; word = b.word.now }) result.now ≡ block_table }
{
    BLOCKS
}

/// The keywords of all blocks.
pub fn keywords() -> &'static [Keyword]
    ensures { map (λ k. record { block = k.block; word = k.word.now; entry = k.entry }) result.now ≡ keyword_table }
{
    KEYWORDS
}

/// The words that are refused.
pub fn refused_words() -> &'static [&'static [u8]]
    ensures { map (λ w. w.now) result.now ≡ refused_table }
{
    REFUSED
}

/// The words that `output` takes.
pub fn mode_words() -> &'static [&'static [u8]]
    ensures { map (λ w. w.now) result.now ≡ mode_table }
{
    MODES
}
