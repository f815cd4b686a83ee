// The summary of a study's rows and of its end.
ghost use Rattle.std.specs.Prelude.{◌≡◌, ◌≤◌};
ghost use Rattle.dk_outside.specs.Causes.{HasCause};
ghost use Rattle.dk_outside.specs.Flows.{Puts};
ghost use Rattle.dk_outside.specs.Sinks.{WritesText};
ghost use Rattle.dk_types.specs.Best.{best as best_place};
ghost use Rattle.dk_types.specs.Texts.{summary, why_text, ending_line, counts_line, best_lines, best_text, setting, settings_after};
ghost use Rattle.dk_types.specs.declared.study.Ending.TheVariants.{Finished, Aborted};
ghost use Rattle.dk_types.specs.Widths.{HaveWidths};

use crate::best_row::best;
use crate::numbers::{put_decimal, put_number};
use crate::repeats::repeat_count;
use dk_num::Dec;
use dk_outside::{Failed, Sink, Writer};
use dk_types::{Ending, Rows, Study, Text, Why};

/// Writes how the study ended, how many rows there are and how many of them are duplicates, and the best row. After
/// `Failed` the sink has taken a front of this.
pub fn write_summary<R: Rows, U: Sink>(
    study: &Study,
    rows: &R,
    ending: &Ending,
    sink: &mut U,
) -> Result<(), Failed>
    requires widths { HaveWidths study.now (R.rows rows.now) }
    ensures bytes { WritesText (U.held sink.old) (U.held sink.new) result (summary study.now (R.rows rows.now) ending.now) }
    ensures cause { HasCause (U.faults sink.old) (U.faults sink.new) result }
{
    let mut writer = Writer::new(sink);
    put_ending(ending, &mut writer);
    put_counts(rows.count(), repeat_count(rows), &mut writer);
    put_best(study, rows, &mut writer);
    writer.finish()
}

fn put_ending<U: Sink>(ending: &Ending, writer: &mut Writer<'_, U>)
    ensures { Puts U.held U.faults writer.old writer.new (ending_line ending.now) }
{
    match ending {
        Ending::Finished(why) => put_finished(*why, writer),
        Ending::Aborted {
            evaluation,
            attempts,
        } => put_aborted(*evaluation, *attempts, writer),
    }
}

fn put_finished<U: Sink>(why: Why, writer: &mut Writer<'_, U>)
    ensures { Puts U.held U.faults writer.old writer.new (ending_line (Finished why)) }
{
    writer.put(b"<<<<< Study finished: ");
    writer.put(why_name(why));
    writer.put(b"\n");
}

fn why_name(why: Why) -> &'static [u8]
    ensures { result.now ≡ why_text why }
{
    match why {
        Why::Complete => b"complete",
        Why::Threshold => b"threshold_delta",
        Why::Iterations => b"max_iterations",
        Why::Evaluations => b"max_function_evaluations",
    }
}

fn put_aborted<U: Sink>(evaluation: u32, attempts: u32, writer: &mut Writer<'_, U>)
    ensures { Puts U.held U.faults writer.old writer.new (ending_line (Aborted evaluation attempts)) }
{
    writer.put(b"<<<<< Study aborted: evaluation ");
    put_number(evaluation as usize, writer);
    writer.put(b" failed, attempts ");
    put_number(attempts as usize, writer);
    writer.put(b"\n");
}

fn put_counts<U: Sink>(total: u32, repeated: u32, writer: &mut Writer<'_, U>)
    requires { repeated ≤ total }
    ensures { Puts U.held U.faults writer.old writer.new (counts_line total repeated) }
{
    writer.put(b"<<<<< Function evaluation summary: ");
    put_number(total as usize, writer);
    writer.put(b" total (");
    put_number((total - repeated) as usize, writer);
    writer.put(b" new, ");
    put_number(repeated as usize, writer);
    writer.put(b" duplicate)\n");
}

/// Puts the lines of the best row, where there is one.
fn put_best<R: Rows, U: Sink>(study: &Study, rows: &R, writer: &mut Writer<'_, U>)
    requires { HaveWidths study.now (R.rows rows.now) }
    ensures { Puts U.held U.faults writer.old writer.new (best_text study.now (R.rows rows.now) (best_place study.now (R.rows rows.now))) }
{
    let Some(row) = best(study, rows) else {
        return;
    };
    put_best_lines(study, row, rows.point(row), rows.values(row), writer);
}

fn put_best_lines<U: Sink>(
    study: &Study,
    number: u32,
    point: &[Dec],
    values: &[Dec],
    writer: &mut Writer<'_, U>,
)
    ensures { Puts U.held U.faults writer.old writer.new (best_lines study.now number (record { point = point.now; values = values.now })) }
{
    writer.put(b"<<<<< Best evaluation: ");
    put_number(number as usize, writer);
    writer.put(b"\n<<<<< Best parameters: ");
    put_settings(b"", study.variables.labels.items(), point, writer);
    writer.put(b"\n<<<<< Best objective function: ");
    put_settings(b"", study.responses.labels.items(), values, writer);
    writer.put(b"\n");
}

/// Puts LABEL = VALUE for each label: the first after this text, and each of the others after a comma.
fn put_settings<U: Sink>(before: &[u8], labels: &[Text], values: &[Dec], writer: &mut Writer<'_, U>)
    ensures { Puts U.held U.faults writer.old writer.new (settings_after before.now labels.now values.now) }
{
    let Some((label, labels)) = labels.split_first() else {
        return;
    };
    let Some((value, values)) = values.split_first() else {
        return;
    };
    writer.put(before);
    put_setting(label, value, writer);
    put_settings(b", ", labels, values, writer);
}

fn put_setting<U: Sink>(label: &Text, value: &Dec, writer: &mut Writer<'_, U>)
    ensures { Puts U.held U.faults writer.old writer.new (setting label.now value.now) }
{
    writer.put(label.as_str().as_bytes());
    writer.put(b" = ");
    put_decimal(value, writer);
}
