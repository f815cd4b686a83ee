//! Command lines with what they command or their first fault.
use crate::words::{usage_of_check, usage_of_run};
use crate::{Command, CommandFault, command, mode_of};
use dk_outside::Mode;
use std::alloc::{AllocError, Global};
use std::test::Fail;

fn texts(alloc: Global, words: &[&str]) -> Result<Vec<String>, AllocError> {
    let mut texts = Vec::new(alloc);
    for word in words {
        texts.push(String::from_str(alloc, word)?)?;
    }
    Ok(texts)
}

/// What the words command, as a text.
fn told(alloc: Global, words: &[String]) -> Result<String, AllocError> {
    match command(alloc, words) {
        Ok(
            Command::Run {
                input,
                restart,
                mode,
            },
        ) => {
            let input = input.as_str();
            let restart = restart.as_str();
            format!(in alloc; "run {input}, {restart} {mode:?}")
        }
        Ok(Command::Check { input }) => {
            let input = input.as_str();
            format!(in alloc; "check {input}")
        }
        Err(fault) => format!(in alloc; "{fault}"),
    }
}

/// The words, what they command, and the places at which they aren't a run's or a check's, where they aren't.
const CASES: [(&[&str], &str, Option<u32>, Option<u32>); 35] = [
    (&["-i", "a"], "run a, dakota.rst Fresh", None, Some(1)),
    (&["-input", "a"], "run a, dakota.rst Fresh", None, Some(1)),
    (&["-i", "a", "-w", "y"], "run a, y Fresh", None, Some(1)),
    (
        &["-write_restart", "y", "-i", "a"],
        "run a, y Fresh",
        None,
        Some(3),
    ),
    (
        &["-i", "a", "-r", "x y"],
        "run a, x y Resume",
        None,
        Some(1),
    ),
    (
        &["-read_restart", "x", "-input", "a"],
        "run a, x Resume",
        None,
        Some(3),
    ),
    (&["-check", "-i", "a"], "check a", Some(1), None),
    (&["-input", "a b", "-check"], "check a b", Some(3), None),
    (&[], "usage: word 1", Some(1), Some(1)),
    (&["-i"], "usage: word 2", Some(2), Some(2)),
    (&["-i", "-r"], "usage: word 2", Some(2), Some(2)),
    (&["-i", "-check"], "usage: word 2", Some(2), Some(2)),
    (&["-i", ""], "usage: word 2", Some(2), Some(2)),
    (&["-r", "", "-i", "a"], "usage: word 2", Some(2), Some(2)),
    (&["-i", "a", "-i", "b"], "usage: word 3", Some(3), Some(3)),
    (
        &["-i", "a", "-input", "b"],
        "usage: word 3",
        Some(3),
        Some(3),
    ),
    (&["-input", "a", "-i"], "usage: word 3", Some(3), Some(3)),
    (
        &["-r", "x", "-read_restart", "y"],
        "usage: word 3",
        Some(3),
        Some(3),
    ),
    (&["-i", "a", "b"], "usage: word 3", Some(3), Some(3)),
    (
        &["-i", "a", "-rehearse", "1"],
        "usage: word 3",
        Some(3),
        Some(3),
    ),
    (&["-frob"], "usage: word 1", Some(1), Some(1)),
    (&["a", "-i", "b"], "usage: word 1", Some(1), Some(1)),
    (&["-I", "a"], "usage: word 1", Some(1), Some(1)),
    (&["-check"], "usage: word 2", Some(2), Some(2)),
    (&["-check", "-check"], "usage: word 2", Some(2), Some(2)),
    (&["-check", "-i"], "usage: word 3", Some(3), Some(3)),
    (&["-r", "x"], "usage: word 3", Some(3), Some(3)),
    (&["-i", "a", "-w"], "usage: word 4", Some(4), Some(4)),
    (
        &["-i", "a", "-r", "x", "-w", "y"],
        "usage: word 5",
        Some(5),
        Some(5),
    ),
    (
        &["-w", "y", "-r", "x", "-i"],
        "usage: word 3",
        Some(3),
        Some(3),
    ),
    (
        &["-check", "-r", "x", "-i", "a"],
        "usage: word 2",
        Some(2),
        Some(2),
    ),
    (
        &["-r", "x", "-check", "-i", "a"],
        "usage: word 3",
        Some(3),
        Some(3),
    ),
    (
        &["-i", "a", "-w", "y", "-check"],
        "usage: word 5",
        Some(5),
        Some(5),
    ),
    (
        &["-i", "a", "-check", "-w"],
        "usage: word 4",
        Some(4),
        Some(4),
    ),
    (
        &["-check", "-i", "a", "-check", "-x"],
        "usage: word 4",
        Some(4),
        Some(4),
    ),
];

#[test]
fn command_lines_command_or_have_a_fault(rt: HostRuntime) -> Result<(), Fail> {
    let alloc = rt.alloc();
    for (words, text, run, check) in CASES {
        let words = texts(alloc, words)?;
        let told = told(alloc, &words)?;
        assert_eq!(rt; told.as_bytes(), text.as_bytes());
        assert_eq!(rt; usage_of_run(&words), run, "at {text}");
        assert_eq!(rt; usage_of_check(&words), check, "at {text}");
    }
    Ok(())
}

/// The mode of a run; other words have the mode `Fresh`.
#[test]
fn words_have_a_mode(rt: HostRuntime) -> Result<(), Fail> {
    let alloc = rt.alloc();
    let cases: [(&[&str], Mode); 5] = [
        (&["-i", "a"], Mode::Fresh),
        (&["-w", "x", "-i", "a"], Mode::Fresh),
        (&["-i", "a", "-read_restart", "x"], Mode::Resume),
        (&["-check", "-i", "a"], Mode::Fresh),
        (&["-r", "x"], Mode::Fresh),
    ];
    for (words, mode) in cases {
        assert_eq!(rt; mode_of(&texts(alloc, words)?), mode);
    }
    Ok(())
}

#[test]
fn faults_of_command_lines_have_texts(rt: HostRuntime) -> Result<(), Fail> {
    let alloc = rt.alloc();
    let cases = [
        (CommandFault::Usage { at: 12 }, "usage: word 12"),
        (CommandFault::NoMemory, "out of memory"),
    ];
    for (fault, text) in cases {
        let told = format!(in alloc; "{fault}")?;
        assert_eq!(rt; told.as_bytes(), text.as_bytes());
    }
    Ok(())
}
