//! Laws of the definitions. Each is the contract of a function that does nothing.
ghost use Rattle.std.specs.Prelude.{◌≡◌};
ghost use Rattle.dk_params.specs.Worked.{worked, worked_standard, worked_aprepro};
ghost use Rattle.dk_params.specs.Reading.{EachLineIsRead, EachPointIsRead};
ghost use Rattle.dk_types.specs.declared.study.ParamForm.TheVariants.{Standard, Aprepro};

/// The files of evaluation 2 of a study of x1 and x2, at 0.5 and 0.5, in both forms.
pub fn worked_files()
    ensures standard { worked Standard ≡ worked_standard }
    ensures aprepro { worked Aprepro ≡ worked_aprepro }
{}

/// Each line of a file is read as its value and its tag, in either form, whatever the labels.
pub fn each_line_is_read()
    ensures { EachLineIsRead }
{}

/// Each point is read from its file by the labels of the variables, in either form, whatever the labels.
pub fn each_point_is_read()
    ensures { EachPointIsRead }
{}
