//! The texts of small studies, byte for byte.
ghost use Rattle.dk_types.specs.Widths.{HaveWidths};
ghost use Rattle.std.specs.Prelude.{IsTrue};

mod memory;

use crate::{best, write_summary, write_table};
use dk_memory::MemSink;
use dk_num::{Dec, unit_of};
use dk_outside::Failed;
use dk_types::{
    Decs, Driver, Ending, FailRule, Interface, Labels, Method, ParamForm, Responses, Row, Study,
    Text, Units, Variables, Way, Why,
};
use memory::Listed;
use std::alloc::{AllocError, Global};
use std::process::Abort;
use std::test::Fail;

fn labels(alloc: Global, names: &[&str]) -> Result<Labels, AllocError> {
    let mut texts = Vec::new(alloc);
    for name in names {
        texts.push(Text::of(alloc, name)?)?;
    }
    Ok(Labels::of_vec(texts))
}

/// A study of x1 and x2 with these responses, and a table where it has a name.
fn study(
    alloc: Global,
    responses: &[&str],
    objectives: bool,
    table: Option<&str>,
) -> Result<Study, AllocError> {
    Ok(Study {
        unit: unit_of(&[]),
        variables: Variables {
            labels: labels(alloc, &["x1", "x2"])?,
            initial: Units::of(alloc, &[0, 0])?,
            lower: None,
            upper: None,
        },
        responses: Responses {
            labels: labels(alloc, responses)?,
            objectives,
        },
        method: Method::Vector {
            steps: 2,
            way: Way::Step(Units::of(alloc, &[1, 1])?),
        },
        interface: interface(alloc)?,
        table: match table {
            Some(name) => Some(Text::of(alloc, name)?),
            None => None,
        },
        limit: 3,
    })
}

fn interface(alloc: Global) -> Result<Interface, AllocError> {
    Ok(Interface {
        driver: Driver::Direct,
        parameters: Text::of(alloc, "params.in")?,
        results: Text::of(alloc, "results.out")?,
        form: ParamForm::Standard,
        tag: false,
        save: false,
        concurrency: 1,
        rule: FailRule::Abort,
    })
}

fn decimals(alloc: Global, texts: &[&str]) -> Result<Decs, Fail> {
    let mut items = Vec::new(alloc);
    for text in texts {
        items.push(Dec::read(text.as_bytes())?)?;
    }
    Ok(Decs::of_vec(items))
}

/// The numbers of a point, and those of its values.
type Numbers<'a> = (&'a [&'a str], &'a [&'a str]);

fn rows_of(alloc: Global, lines: &[Numbers]) -> Result<Vec<Row>, Fail> {
    let mut rows = Vec::new(alloc);
    for (point, values) in lines {
        rows.push(Row {
            point: decimals(alloc, point)?,
            values: decimals(alloc, values)?,
        })?;
    }
    Ok(rows)
}

/// Whether each row has a number for each variable and a value for each response.
fn have_widths(study: &Study, rows: &[Row]) -> bool
    ensures { IsTrue result → HaveWidths study.now rows.now }
{
    for row in rows {
        if row.point.items().len() != study.variables.labels.items().len() {
            return false;
        }
        if row.values.items().len() != study.responses.labels.items().len() {
            return false;
        }
    }
    true
}

/// What the two writers leave in their sinks, and the best row's number.
#[derive(Drop)]
struct Told {
    table: MemSink,
    summary: MemSink,
    best: Option<u32>,
}

fn write_both(
    rt: &impl Abort,
    alloc: Global,
    study: &Study,
    lines: &[Numbers],
    ending: &Ending,
) -> Result<Told, Fail> {
    let rows = rows_of(alloc, lines)?;
    assert!(rt; rows.len() < 100);
    assert!(rt; have_widths(study, &rows));
    let rows = Listed::of(rows);
    let mut table = MemSink::sink(alloc, 1000, &[])?;
    let mut summary = MemSink::sink(alloc, 1000, &[])?;
    assert_eq!(rt; write_table(study, &rows, &mut table), Ok(()));
    assert_eq!(rt; write_summary(study, &rows, ending, &mut summary), Ok(()));
    Ok(Told {
        table,
        summary,
        best: best(study, &rows),
    })
}

const TABLE: &str = "%eval_id interface x1 x2 obj_fn
1 NO_ID 0 0 1
2 NO_ID 0.5 0.5 6.5
3 NO_ID 1 1 0
";

const SUMMARY: &str = "<<<<< Study finished: complete
<<<<< Function evaluation summary: 3 total (3 new, 0 duplicate)
<<<<< Best evaluation: 3
<<<<< Best parameters: x1 = 1, x2 = 1
<<<<< Best objective function: obj_fn = 0
";

const SAME_ROWS: &str = "%eval_id interface x1 x2 obj_fn
1 NO_ID 0.1 0 0.82
2 NO_ID 0.1 0 0.82
";

const SAME_ROWS_TOLD: &str = "<<<<< Study finished: complete
<<<<< Function evaluation summary: 2 total (1 new, 1 duplicate)
<<<<< Best evaluation: 1
<<<<< Best parameters: x1 = 0.1, x2 = 0
<<<<< Best objective function: obj_fn = 0.82
";

const NO_ROWS: &str = "%eval_id interface x1 x2 obj_fn
";

const ABORTED: &str = "<<<<< Study aborted: evaluation 1 failed, attempts 3
<<<<< Function evaluation summary: 0 total (0 new, 0 duplicate)
";

/// The rows of a study with one objective function, its end, its table, its summary and its best row.
type Case<'a> = (&'a [Numbers<'a>], Ending, &'a str, &'a str, Option<u32>);

/// The rows of a study, rows of which the second repeats the first, and none.
#[test]
fn rows_are_told(rt: HostRuntime) -> Result<(), Fail> {
    let alloc = rt.alloc();
    let complete = Ending::Finished(Why::Complete);
    let aborted = Ending::Aborted {
        evaluation: 1,
        attempts: 3,
    };
    let cases: [Case; 3] = [
        (
            &[
                (&["0", "0"], &["1"]),
                (&["0.5", "0.5"], &["6.5"]),
                (&["1", "1"], &["0"]),
            ],
            complete,
            TABLE,
            SUMMARY,
            Some(3),
        ),
        (
            &[(&["0.1", "0"], &["0.82"]), (&["0.10", "0"], &["82e-2"])],
            complete,
            SAME_ROWS,
            SAME_ROWS_TOLD,
            Some(1),
        ),
        (&[], aborted, NO_ROWS, ABORTED, None),
    ];
    let study = study(alloc, &["obj_fn"], true, Some("t.dat"))?;
    for (lines, ending, table, summary, best) in cases {
        let told = write_both(&rt, alloc, &study, lines, &ending)?;
        assert_eq!(rt; told.table.begun(), Some("t.dat"));
        assert_eq!(rt; told.table.taken(), table.as_bytes());
        assert_eq!(rt; told.summary.taken(), summary.as_bytes());
        assert_eq!(rt; told.summary.begun(), None);
        assert_eq!(rt; told.best, best);
    }
    Ok(())
}

const TWO_RESPONSES: &str = "%eval_id interface x1 x2 response_fn_1 response_fn_2
1 NO_ID 0 -1000 1 2
";

const TWO_TOLD: &str = "<<<<< Study finished: max_function_evaluations
<<<<< Function evaluation summary: 1 total (1 new, 0 duplicate)
";

/// Of several responses there is no best row, and the sink of a table that isn't asked for isn't called.
#[test]
fn other_studies_have_no_best_row_or_no_table(rt: HostRuntime) -> Result<(), Fail> {
    let alloc = rt.alloc();
    let responses = ["response_fn_1", "response_fn_2"];
    let cases: [(bool, Option<&str>, &str); 2] = [
        (false, Some("rows.txt"), TWO_RESPONSES),
        (true, None, ""),
    ];
    for (objectives, name, table) in cases {
        let study = study(alloc, &responses, objectives, name)?;
        let lines: [Numbers; 1] = [(&["0", "-1e3"], &["1", "2"])];
        let ending = Ending::Finished(Why::Evaluations);
        let told = write_both(&rt, alloc, &study, &lines, &ending)?;
        assert_eq!(rt; told.table.begun(), name);
        assert_eq!(rt; told.table.taken(), table.as_bytes());
        assert_eq!(rt; told.summary.taken(), TWO_TOLD.as_bytes());
        assert_eq!(rt; told.best, None);
    }
    Ok(())
}

/// A sink that fails has a front of the text.
#[test]
fn a_full_sink_keeps_a_front(rt: HostRuntime) -> Result<(), Fail> {
    let alloc = rt.alloc();
    let study = study(alloc, &["obj_fn"], true, Some("t.dat"))?;
    let rows = Listed::of(Vec::new(alloc));
    let mut table = MemSink::sink(alloc, 10, &[])?;
    assert_eq!(rt; write_table(&study, &rows, &mut table), Err(Failed));
    assert_eq!(rt; table.begun(), Some("t.dat"));
    assert_eq!(rt; table.taken(), "%eval_id i".as_bytes());
    Ok(())
}
