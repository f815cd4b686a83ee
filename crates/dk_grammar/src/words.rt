// What the words of study files mean.

/// The blocks of a study file, after the Dakota Reference Manual.
#[derive(Clone, Copy, Debug, PartialEq, Eq)]
pub enum Block {
    Environment,
    Method,
    Model,
    Variables,
    Interface,
    Responses,
}

/// Which values a keyword takes.
#[derive(Clone, Copy, Debug, PartialEq, Eq)]
pub enum Takes {
    /// No values.
    Nothing,
    /// Whole numbers from one number up to another, both included.
    Wholes(u32, u32),
    /// Numbers.
    Numbers,
    /// Strings in quotes.
    Strings,
    /// The one word that says how much to write.
    Mode,
}

/// How many values a keyword takes.
#[derive(Clone, Copy, Debug, PartialEq, Eq)]
pub enum Count {
    /// No value.
    None,
    /// One value.
    One,
    /// One value for each variable.
    PerVariable,
    /// One value for all variables, or one for each.
    OneOrPerVariable,
    /// One row or more, each of one value for each variable.
    RowsOfVariables,
    /// One value for each response.
    PerResponse,
    /// Any number of values.
    Any,
}

/// The keywords, each by a name of its own. Keywords of two blocks that are spelled alike have one name.
#[derive(Clone, Copy, Debug, PartialEq, Eq)]
pub enum Name {
    TabularData,
    TabularDataFile,
    VectorParameterStudy,
    ListParameterStudy,
    CenteredParameterStudy,
    MultidimParameterStudy,
    CompassSearch,
    NumSteps,
    StepVector,
    FinalPoint,
    ListOfPoints,
    StepsPerVariable,
    Partitions,
    InitialDelta,
    ThresholdDelta,
    MaxIterations,
    MaxFunctionEvaluations,
    Output,
    Single,
    ContinuousDesign,
    InitialPoint,
    LowerBounds,
    UpperBounds,
    Descriptors,
    AnalysisDrivers,
    Fork,
    Direct,
    ParametersFile,
    ResultsFile,
    FileTag,
    FileSave,
    Aprepro,
    Asynchronous,
    EvaluationConcurrency,
    FailureCapture,
    Abort,
    Retry,
    Recover,
    ObjectiveFunctions,
    ResponseFunctions,
    ResponseDescriptors,
    NoGradients,
    NoHessians,
}

/// A keyword of a block: its name, which values it takes and how many.
#[derive(Clone, Copy, Debug, PartialEq, Eq)]
pub struct Entry {
    pub name: Name,
    pub takes: Takes,
    pub count: Count,
}
