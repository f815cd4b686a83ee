// A parameters file of the standard form, read by its tags.
use dk_num::Dec;

/// The point of an evaluation of two variables, the label of its response, and its number.
#[derive(Clone, Copy, Debug)]
pub struct Parameters<'a> {
    pub x1: Dec,
    pub x2: Dec,
    pub label: &'a str,
    pub evaluation: u32,
}

/// What a text says: the values of the two variables, which stand behind the line of their number, behind them the response for
/// which a value is asked, and the evaluation's number. None where one of these isn't there.
pub fn read_parameters(text: &str) -> Option<Parameters<'_>> {
    let mut lines = text.lines();
    let count = lines.find_map(count_of)?;
    if count != "2" {
        return None;
    }
    Some(Parameters {
        x1: value_of(lines.next()?)?,
        x2: value_of(lines.next()?)?,
        label: lines.find_map(asked_label)?,
        evaluation: text.lines().find_map(evaluation_of)?,
    })
}

/// How many variables there are, where a line tells it.
fn count_of(line: &str) -> Option<&str> {
    let (value, tag) = pair_of(line)?;
    if tag == "variables" {
        Some(value)
    } else {
        None
    }
}

/// The label of the response for which a line asks, where it asks for one.
fn asked_label(line: &str) -> Option<&str> {
    let (_, tag) = pair_of(line)?;
    let (_, label) = tag.strip_prefix("ASV_")?.split_once(':')?;
    Some(label)
}

/// The evaluation's number, where a line tells it.
fn evaluation_of(line: &str) -> Option<u32> {
    let (value, tag) = pair_of(line)?;
    if tag == "eval_id" {
        value.parse::<u32>().ok()
    } else {
        None
    }
}

/// The decimal that a line has before its tag.
fn value_of(line: &str) -> Option<Dec> {
    let (value, _) = pair_of(line)?;
    Dec::read(value.as_bytes()).ok()
}

/// A line's value and its tag, between which a blank stands.
fn pair_of(line: &str) -> Option<(&str, &str)> {
    line.trim().split_once(' ')
}
