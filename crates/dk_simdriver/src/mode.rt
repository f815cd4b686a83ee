// The words of the command line.

/// What the simulation does.
#[derive(Clone, Copy, Debug, PartialEq, Eq)]
pub enum Mode {
    Rosenbrock,
    /// It fails at this evaluation.
    Fail { evaluation: u32 },
    /// It fails at its first so many calls.
    Flaky { calls: u32 },
}

/// A mode, and the names of the two files.
#[derive(Clone, Copy, Debug)]
pub struct Words<'a> {
    pub mode: Mode,
    pub parameters: &'a str,
    pub results: &'a str,
}

/// The mode and the files that the words behind the program's name say, where they say some.
pub fn words_of<'a>(words: &'a [String]) -> Option<Words<'a>> {
    let (mode, parameters, results) = match words {
        [mode, parameters, results] => (mode_of(mode.as_str(), None)?, parameters, results),
        [mode, number, parameters, results] => (
            mode_of(mode.as_str(), Some(number.as_str()))?,
            parameters,
            results,
        ),
        _ => return None,
    };
    Some(Words {
        mode,
        parameters: parameters.as_str(),
        results: results.as_str(),
    })
}

fn mode_of(mode: &str, number: Option<&str>) -> Option<Mode> {
    match (mode, number) {
        ("rosenbrock", None) => Some(Mode::Rosenbrock),
        ("fail", Some(number)) => Some(Mode::Fail {
            evaluation: digits(number)?,
        }),
        ("flaky", Some(number)) => Some(Mode::Flaky {
            calls: digits(number)?,
        }),
        _ => None,
    }
}

/// A number below 2^32, of digits alone.
fn digits(text: &str) -> Option<u32> {
    if text.bytes().all(|byte| byte.is_ascii_digit()) {
        text.parse::<u32>().ok()
    } else {
        None
    }
}
