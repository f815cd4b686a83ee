// Words and texts that no run is made of.
use super::texts::{BASE, edited, unmarked};
use super::{FRESH, assert_refused, run_text};
use std::alloc::Global;
use std::process::Abort;
use std::test::Fail;

/// Words that aren't a run's are refused at their place, and nothing is read: the source fails at its first call.
#[test]
fn other_words_are_refused_at_their_place(rt: HostRuntime) -> Result<(), Fail> {
    let cases: [(&[&str], &str); 8] = [
        (&[], "dakota: usage: word 1\n"),
        (&["-frob"], "dakota: usage: word 1\n"),
        (&["-i"], "dakota: usage: word 2\n"),
        (&["-i", "-r"], "dakota: usage: word 2\n"),
        (&["-i", "a", "b"], "dakota: usage: word 3\n"),
        (&["-i", "a", "-i", "b"], "dakota: usage: word 3\n"),
        (
            &["-i", "a", "-r", "x", "-w", "y"],
            "dakota: usage: word 5\n",
        ),
        (&["-check", "-i", "a"], "dakota: usage: word 1\n"),
    ];
    for (words, line) in cases {
        let left = run_text(rt.alloc(), words, b"", &[1])?;
        assert_refused(&rt, &left, 2, line);
        assert_eq!(rt; left.disk.moments(), 0);
        assert!(rt; left.book.is_none());
    }
    Ok(())
}

/// The text is refused for this fault, and the restart file's disk isn't called.
fn assert_no_study(
    rt: &impl Abort,
    alloc: Global,
    text: &[u8],
    kind: &str,
    from: u32,
    to: u32,
) -> Result<(), Fail> {
    let left = run_text(alloc, FRESH, text, &[])?;
    let line = format!(in alloc; "dakota: study refused: {kind} at bytes {from}..{to}\n")?;
    assert_refused(rt, &left, 3, line.as_str());
    assert_eq!(rt; left.disk.moments(), 0);
    assert!(rt; left.book.is_none());
    Ok(())
}

/// A text that says no study is refused for its first fault, at its place, and nothing is evaluated.
#[test]
fn other_texts_are_refused_at_their_place(rt: HostRuntime) -> Result<(), Fail> {
    let alloc = rt.alloc();
    let cases: [(&str, &[(&str, &str)]); 8] = [
        ("MissingBlock", &[(BASE, "")]),
        ("UnknownKeyword", &[("num_steps = 2", "[numsteps] = 2")]),
        ("OpenString", &[("'x1' 'x2'", "'x1' ['x2]")]),
        ("BadWhole", &[("num_steps = 2", "num_steps = [10001]")]),
        ("BadNumber", &[("0.5 0.5", "0.5 [1e401]")]),
        (
            "WrongCount",
            &[("step_vector = 0.5 0.5", "[step_vector] = 1 1 1")],
        ),
        ("Unsupported", &[("'rosenbrock'", "['other']")]),
        ("OffGrid", &[("0.5 0.5", "1e20 [1e-20]")]),
    ];
    for (kind, edits) in cases {
        let (text, from, to) = unmarked(alloc, &edited(alloc, edits)?)?;
        assert_no_study(&rt, alloc, &text, kind, from, to)?;
    }
    let long = vec![in alloc; b'#'; 1_048_577]?;
    assert_no_study(&rt, alloc, &long, "TooLong", 0, 0)
}
