//! Parameters files of small studies, byte for byte.
ghost use Rattle.std.specs.Prelude.{◌≡◌, IfOk, IsTrue};
ghost use Rattle.std.specs.List.{list_all, list_any};
ghost use Rattle.std.specs.Str.{bytes_eq};
ghost use Rattle.dk_types.specs.Labels.{AreLabels, is_label as is_label_text, is_visible as is_visible_byte, are_distinct as are_distinct_texts};

use crate::laws::{each_line_is_read, each_point_is_read, worked_files};
use crate::{Task, params_bound, params_text};
use dk_num::{Dec, unit_of};
use dk_types::{
    Driver, FailRule, Interface, Labels, Method, ParamForm, Responses, Study, Text, Units,
    Variables, Way,
};
use std::alloc::{AllocError, Global};
use std::test::Fail;

/// Whether all bytes are visible.
fn is_visible(bytes: &[u8]) -> bool
    ensures { result ≡ list_all is_visible_byte bytes.now }
{
    bytes.iter().all(|byte| 33 <= *byte && *byte <= 126)
}

/// Whether a text may be a label.
fn is_label(bytes: &[u8]) -> bool
    ensures { result ≡ is_label_text bytes.now }
{
    match bytes {
        [first, ..] => {
            (first.is_ascii_alphabetic() || *first == b'_')
                && is_visible(bytes)
                && bytes.len() <= 255
        }
        [] => false,
    }
}

/// Whether each text may be a label.
fn are_each_labels(texts: &[Text]) -> bool
    ensures { result ≡ list_all is_label_text texts.now }
{
    texts.iter().all(|text| is_label(text.as_str().as_bytes()))
}

/// Whether a text stands among others.
fn stands_among(text: &Text, others: &[Text]) -> bool
    ensures { result ≡ list_any (bytes_eq text.now) others.now }
{
    others.iter().any(|other| text.as_str() == other.as_str())
}

/// Whether no text stands twice.
fn are_distinct(texts: &[Text]) -> bool
    ensures { result ≡ are_distinct_texts texts.now }
{
    match texts.split_first() {
        None => true,
        Some((first, others)) => !stands_among(first, others) && are_distinct(others),
    }
}

/// Whether texts are as a study's labels may be.
fn are_labels(texts: &[Text]) -> bool
    ensures { IsTrue result → AreLabels texts.now }
{
    if texts.is_empty() || texts.len() > 100 {
        return false;
    }
    are_each_labels(texts) && are_distinct(texts)
}

fn labels(alloc: Global, names: &[&str]) -> Result<Labels, AllocError> {
    let mut texts = Vec::new(alloc);
    for name in names {
        texts.push(Text::of(alloc, name)?)?;
    }
    Ok(Labels::of_vec(texts))
}

/// A study of these labels, whose parameters files have this form.
fn study(
    alloc: Global,
    form: ParamForm,
    variables: Labels,
    responses: Labels,
) -> Result<Study, AllocError> {
    Ok(Study {
        unit: unit_of(&[]),
        variables: Variables {
            labels: variables,
            initial: Units::of(alloc, &[0, 0])?,
            lower: None,
            upper: None,
        },
        responses: Responses {
            labels: responses,
            objectives: true,
        },
        method: Method::Vector {
            steps: 2,
            way: Way::Step(Units::of(alloc, &[1, 1])?),
        },
        interface: Interface {
            driver: Driver::Direct,
            parameters: Text::of(alloc, "params.in")?,
            results: Text::of(alloc, "results.out")?,
            form,
            tag: false,
            save: false,
            concurrency: 1,
            rule: FailRule::Abort,
        },
        table: None,
        limit: 3,
    })
}

fn decimals(alloc: Global, texts: &[&str]) -> Result<Vec<Dec>, Fail> {
    let mut items = Vec::new(alloc);
    for text in texts {
        items.push(Dec::read(text.as_bytes())?)?;
    }
    Ok(items)
}

/// The parameters file of a study, which its task writes alike, in a buffer of just the bound.
fn file(
    rt: &impl std::process::Abort,
    alloc: Global,
    study: &Study,
    evaluation: u32,
    point: &[Dec],
) -> Result<Vec<u8>, Fail> {
    assert!(rt; are_labels(study.variables.labels.items()));
    assert!(rt; are_labels(study.responses.labels.items()));
    assert!(rt; point.len() == study.variables.labels.items().len());
    let mut text = vec![in alloc; 0; params_bound(study)]?;
    let length = params_text(study, evaluation, point, &mut text);
    text.truncate(length);
    let task = Task::of(alloc, study)?;
    let mut again = vec![in alloc; 0; task.params_bound()]?;
    let length = task.params_text(evaluation, point, &mut again);
    again.truncate(length);
    assert_eq!(rt; text, again);
    Ok(text)
}

const STANDARD: &str = "                     2 variables
 5.000000000000000e-01 x1
 5.000000000000000e-01 x2
                     1 functions
                     1 ASV_1:obj_fn
                     2 derivative_variables
                     1 DVV_1:x1
                     2 DVV_2:x2
                     0 analysis_components
                     2 eval_id
";

const APREPRO: &str = "{ DAKOTA_VARS = 2 }
{ x1 = 5.000000000000000e-01 }
{ x2 = 5.000000000000000e-01 }
{ DAKOTA_FNS = 1 }
{ ASV_1:obj_fn = 1 }
{ DAKOTA_DER_VARS = 2 }
{ DVV_1:x1 = 1 }
{ DVV_2:x2 = 2 }
{ DAKOTA_AN_COMPS = 0 }
{ DAKOTA_EVAL_ID = 2 }
";

#[test]
fn worked_files_are_written(rt: HostRuntime) -> Result<(), Fail> {
    worked_files();
    each_line_is_read();
    each_point_is_read();
    let alloc = rt.alloc();
    let point = decimals(alloc, &["0.5", "0.5"])?;
    for (form, wanted) in [
        (ParamForm::Standard, STANDARD),
        (ParamForm::Aprepro, APREPRO),
    ] {
        let variables = labels(alloc, &["x1", "x2"])?;
        let study = study(alloc, form, variables, labels(alloc, &["obj_fn"])?)?;
        assert_eq!(rt;
            file(&rt, alloc, &study, 2, &point)?.as_slice(),
            wanted.as_bytes()
        );
    }
    Ok(())
}

// Values of 21, 22, 23, 24 and 42 places, labels that are tags elsewhere, and the greatest number of an evaluation.
const LONG: &str = "                     5 variables
 0.000000000000000e+00 variables
-1.250000000000000e+01 eval_id
-1.000000000000000e+100 x{=}
1.234567890123456789e-04 ASV_1:f
-9.999999999999999999999999999999999e-9999 _
                     2 functions
                     1 ASV_1:f
                     1 ASV_2:functions
                     5 derivative_variables
                     1 DVV_1:variables
                     2 DVV_2:eval_id
                     3 DVV_3:x{=}
                     4 DVV_4:ASV_1:f
                     5 DVV_5:_
                     0 analysis_components
            4294967295 eval_id
";

#[test]
fn long_values_and_odd_labels_are_written(rt: HostRuntime) -> Result<(), Fail> {
    let alloc = rt.alloc();
    let variables = labels(alloc, &["variables", "eval_id", "x{=}", "ASV_1:f", "_"])?;
    let responses = labels(alloc, &["f", "functions"])?;
    let study = study(alloc, ParamForm::Standard, variables, responses)?;
    let point = decimals(
        alloc,
        &[
            "0",
            "-12.5",
            "-1e100",
            "0.0001234567890123456789",
            "-9999999999999999999999999999999999e-10032",
        ],
    )?;
    let text = file(&rt, alloc, &study, 4_294_967_295, &point)?;
    assert_eq!(rt; text.as_slice(), LONG.as_bytes());
    Ok(())
}

/// A hundred variables, at 1 to 100.
#[test]
fn a_hundred_variables_are_written(rt: HostRuntime) -> Result<(), Fail> {
    let alloc = rt.alloc();
    let mut names = Vec::new(alloc);
    let mut point = Vec::new(alloc);
    for number in 1..101u32 {
        names.push(Text::of(alloc, format!(in alloc; "v{number}")?.as_str())?)?;
        point.push(Dec::whole(i128::from(number)))?;
    }
    let variables = Labels::of_vec(names);
    let study = study(
        alloc,
        ParamForm::Standard,
        variables,
        labels(alloc, &["obj_fn"])?,
    )?;
    let text = file(&rt, alloc, &study, 7, &point)?;
    assert_eq!(rt; text.len(), 6296);
    let last = " 1.000000000000000e+02 v100\n                     1 functions\n";
    assert!(rt; text[2697..].starts_with(last.as_bytes()));
    assert!(rt;
        text.ends_with(
            "                   100 DVV_100:v100\n                     0 analysis_components\n                     7 eval_id\n".as_bytes()
        )
    );
    Ok(())
}
