// The table of a study's rows.
ghost use Rattle.std.specs.Prelude.{◌≡◌, None, Ok};
ghost use Rattle.dk_outside.specs.Causes.{HasCause};
ghost use Rattle.dk_outside.specs.Flows.{Puts};
ghost use Rattle.dk_outside.specs.Sinks.{WritesText};
ghost use Rattle.dk_types.specs.Texts.{words_text, decimals_text, row_line, row_lines, table, header};
ghost use Rattle.dk_report.specs.Tables.{WritesTable};

use crate::numbers::{put_decimal, put_number};
use dk_num::Dec;
use dk_outside::{Failed, Sink, Writer};
use dk_types::{Rows, Study, Text};

/// Begins the sink with the name of the study's table and writes the table: its header, and a line for each row.
/// Where the study asks for no table, the sink is as it was, and the answer is `Ok`. After `Failed` the sink has taken
/// a front of the table, or was never begun.
pub fn write_table<R: Rows, T: Sink>(study: &Study, rows: &R, sink: &mut T) -> Result<(), Failed>
    ensures bytes { WritesTable study.now (table study.now (R.rows rows.now)) (T.held sink.old) (T.held sink.new) result }
    ensures cause { HasCause (T.faults sink.old) (T.faults sink.new) result }
    ensures leaves_sink { study.now.table ≡ None → (sink.new ≡ sink.old) × (result ≡ Ok tt) }
{
    let Some(name) = &study.table else {
        return Ok(());
    };
    match sink.begin(name.as_str()) {
        Ok(()) => write_lines(study, rows, sink),
        Err(failed) => Err(failed),
    }
}

/// Writes the header and the lines of the rows.
fn write_lines<R: Rows, T: Sink>(study: &Study, rows: &R, sink: &mut T) -> Result<(), Failed>
    ensures bytes { WritesText (T.held sink.old) (T.held sink.new) result (table study.now (R.rows rows.now)) }
    ensures cause { HasCause (T.faults sink.old) (T.faults sink.new) result }
{
    let mut writer = Writer::new(sink);
    put_header(study, &mut writer);
    put_rows(rows, &mut writer);
    writer.finish()
}

fn put_header<T: Sink>(study: &Study, writer: &mut Writer<'_, T>)
    ensures { Puts T.held T.faults writer.old writer.new (header study.now) }
{
    writer.put(b"%eval_id interface");
    put_words(study.variables.labels.items(), writer);
    put_words(study.responses.labels.items(), writer);
    writer.put(b"\n");
}

fn put_rows<R: Rows, T: Sink>(rows: &R, writer: &mut Writer<'_, T>)
    ensures { Puts T.held T.faults writer.old writer.new (row_lines 1 (R.rows rows.now)) }
{
    for place in 0..rows.count() {
        let number = place + 1;
        put_row(number, rows.point(number), rows.values(number), writer);
    }
}

/// Puts the line of the row of this number.
fn put_row<T: Sink>(number: u32, point: &[Dec], values: &[Dec], writer: &mut Writer<'_, T>)
    ensures { Puts T.held T.faults writer.old writer.new (row_line number (record { point = point.now; values = values.now })) }
{
    put_number(number as usize, writer);
    writer.put(b" NO_ID");
    put_decimals(point, writer);
    put_decimals(values, writer);
    writer.put(b"\n");
}

/// Puts each word after a blank.
fn put_words<T: Sink>(words: &[Text], writer: &mut Writer<'_, T>)
    ensures { Puts T.held T.faults writer.old writer.new (words_text words.now) }
{
    for word in words {
        writer.put(b" ");
        writer.put(word.as_str().as_bytes());
    }
}

/// Puts each decimal's text after a blank.
fn put_decimals<T: Sink>(decimals: &[Dec], writer: &mut Writer<'_, T>)
    ensures { Puts T.held T.faults writer.old writer.new (decimals_text decimals.now) }
{
    for decimal in decimals {
        writer.put(b" ");
        put_decimal(decimal, writer);
    }
}
