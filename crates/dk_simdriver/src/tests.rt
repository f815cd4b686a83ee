//! The simulation over files of its own.
use crate::mode::{Mode, words_of};
use crate::parameters::read_parameters;
use crate::run;
use dk_num::Dec;
use std::alloc::{AllocError, Global};
use std::fs;
use std::test::Fail;

const PARAMETERS: &str = "params.in";

const RESULTS: &str = "results.out";

const TEXT: &str = "                     2 variables
 5.000000000000000e-01 x1
 5.000000000000000e-01 x2
                     1 functions
                     1 ASV_1:obj_fn
                     2 derivative_variables
                     1 DVV_1:x1
                     2 DVV_2:x2
                     0 analysis_components
                     2 eval_id
";

const VALUE: &str = "6.500000000000000e+00 obj_fn\n";

const FAILED: &str = "FAIL\n";

fn texts(alloc: Global, words: &[&str]) -> Result<Vec<String>, AllocError> {
    let mut texts = Vec::new(alloc);
    for word in words {
        texts.push(String::from_str(alloc, word)?)?;
    }
    Ok(texts)
}

/// The words of a mode, and what its first and its second call leave.
type Case = (&'static [&'static str], &'static str, &'static str);

const CASES: [Case; 5] = [
    (&["rosenbrock"], VALUE, VALUE),
    (&["fail", "2"], FAILED, FAILED),
    (&["fail", "3"], VALUE, VALUE),
    (&["flaky", "1"], FAILED, VALUE),
    (&["flaky", "0"], VALUE, VALUE),
];

/// Each mode leaves its results, call after call.
#[test]
fn each_mode_leaves_its_results(rt: HostRuntime) -> Result<(), Fail> {
    fs::write(&rt, PARAMETERS, TEXT)?;
    for (mode, first, second) in CASES {
        let _ = fs::remove_file(&rt, "results.out.count");
        let mut words = texts(rt.alloc(), mode)?;
        for name in [PARAMETERS, RESULTS] {
            words.push(String::from_str(rt.alloc(), name)?)?;
        }
        for left in [first, second] {
            run(&rt, &words)?;
            let results = fs::read(&rt, RESULTS)?;
            assert_eq!(rt; results.as_slice(), left.as_bytes());
        }
    }
    Ok(())
}

/// Other words are none of a call.
#[test]
fn other_words_are_refused(rt: HostRuntime) -> Result<(), Fail> {
    let cases: [&[&str]; 6] = [
        &[],
        &["rosenbrock", "p"],
        &["other", "p", "r"],
        &["fail", "p", "r"],
        &["flaky", "4294967296", "p", "r"],
        &["fail", "+1", "p", "r"],
    ];
    for case in cases {
        let words = texts(rt.alloc(), case)?;
        assert!(rt; words_of(&words).is_none());
    }
    let words = texts(rt.alloc(), &["fail", "4294967295", "p", "r"])?;
    let evaluation = 4_294_967_295;
    assert!(rt; words_of(&words).is_some_and(|words| words.mode == Mode::Fail { evaluation }));
    Ok(())
}

/// A text is read by its tags, wherever its lines stand.
#[test]
fn a_text_is_read_by_its_tags(rt: HostRuntime) -> Result<(), Fail> {
    let other = "12 eval_id\n2 variables\n1.5 ASV_1:a\n-2 b\n0 other\n1 ASV_1:cost\n";
    let Some(found) = read_parameters(other) else {
        assert!(rt; false);
        return Ok(());
    };
    assert_eq!(rt; found.x1, Dec::read(b"1.5")?);
    assert_eq!(rt; found.x2, Dec::read(b"-2")?);
    assert_eq!(rt; found.label, "cost");
    assert_eq!(rt; found.evaluation, 12);
    for text in [
        "",
        "3 variables\n1 a\n1 b\n1 ASV_1:c\n1 eval_id\n",
        "2 variables\n1 a\n",
    ] {
        assert!(rt; read_parameters(text).is_none());
    }
    Ok(())
}
