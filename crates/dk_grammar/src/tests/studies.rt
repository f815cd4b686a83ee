// Whole studies and their trees.
pub const VECTOR: &[u8] = b"environment
  tabular_data
    tabular_data_file = 't.dat'
method
  vector_parameter_study
    num_steps = 2
    step_vector = 0.5 0.5
variables
  continuous_design = 2
    initial_point = 0 0
    descriptors = 'x1' 'x2'
interface
  analysis_drivers = 'rosenbrock'
    direct
responses
  objective_functions = 1
  no_gradients
  no_hessians
";

pub const CONTINUED: &[u8] = b"environment
  tabular_data
    tabular_data_file = 't.dat'
method
  vector_parameter_study
    num_steps = 2
    step_vector = 0.5 0.5
variables
  continuous_design = 2
    initial_point = 0 0
    descriptors = 'x1' 'x2'
interface
  analysis_drivers = 'rosenbrock'
    direct
    continuation
responses
  objective_functions = 1
  no_gradients
  no_hessians
";

pub const VECTOR_TREE: &str = "Environment 0..11;\
    Method 59..65;\
    Variables 135..144;\
    Interface 221..230;\
    Responses 276..285;\
    Environment TabularData 14..26:;\
    Environment TabularDataFile 31..48: 51..58;\
    Method VectorParameterStudy 68..90:;\
    Method NumSteps 95..104: 107..108;\
    Method StepVector 113..124: 127..130 131..134;\
    Variables ContinuousDesign 147..164: 167..168;\
    Variables InitialPoint 173..186: 189..190 191..192;\
    Variables Descriptors 197..208: 211..215 216..220;\
    Interface AnalysisDrivers 233..249: 252..264;\
    Interface Direct 269..275:;\
    Responses ObjectiveFunctions 288..307: 310..311;\
    Responses NoGradients 314..326:;\
    Responses NoHessians 329..340:;";

pub const SHORT: &[u8] = b"RESPONSES no_hessians interface FORK variables method output debug";

pub const SHORT_TREE: &str = "Responses 0..9;Interface 22..31;Variables 37..46;Method 47..53;\
    Responses NoHessians 10..21:;Interface Fork 32..36:;Method Output 54..60: 61..66;";
