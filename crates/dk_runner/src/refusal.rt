// The line of a status.
ghost use Rattle.std.specs.Prelude.{◌≡◌, ◌++◌, codes, decimal};
ghost use Rattle.dk_outside.specs.Flows.{Puts};
ghost use Rattle.dk_runner.specs.Lines.{line, kind_text, refusal_text, step_text};
ghost use Rattle.dk_runner.specs.Headline.{Says, OnlyGrows};
ghost use Rattle.dk_runner.specs.declared.status.Status.TheVariants.{Usage, StudyRefused, RestartRefused, RestartFull, SinkFault};

use crate::{Status, StudyFault, StudyKind, Which};
use dk_fork::{BenchFault, BenchStep};
use dk_journal::OpenFault;
use dk_outside::{Sink, Writer};
use dk_report::put_number;

/// Writes the status's line, or as much of it as the sink takes.
pub fn write_line<U: Sink>(status: &Status, out: &mut U)
    ensures grows { OnlyGrows (U.held out.old) (U.held out.new) }
    ensures says { Says (U.held out.old) (U.held out.new) (U.faults out.old) (U.faults out.new) (line status.now) }
{
    let mut writer = Writer::new(out);
    put_line(status, &mut writer);
    let _ = writer.finish();
}

/// Writes the line of words whose first fault stands at this place, and answers so.
pub fn usage<U: Sink>(at: u32, out: &mut U) -> Status
    ensures status { result ≡ Usage at }
    ensures says { Says (U.held out.old) (U.held out.new) (U.faults out.old) (U.faults out.new) (line result) }
    ensures grows { OnlyGrows (U.held out.old) (U.held out.new) }
{
    refuse(Status::Usage { at }, out)
}

/// Writes the line of a status that comes before the rows, and answers it.
pub fn refuse<U: Sink>(status: Status, out: &mut U) -> Status
    ensures status { result ≡ status }
    ensures says { Says (U.held out.old) (U.held out.new) (U.faults out.old) (U.faults out.new) (line status) }
    ensures grows { OnlyGrows (U.held out.old) (U.held out.new) }
{
    write_line(&status, out);
    status
}

fn put_line<U: Sink>(status: &Status, writer: &mut Writer<'_, U>)
    ensures { Puts U.held U.faults writer.old writer.new (line status.now) }
{
    match status {
        Status::Usage { at } => put_usage(*at, writer),
        Status::StudyRefused(fault) => put_refused(fault, writer),
        Status::SourceFault => writer.put(b"dakota: study not readable\n"),
        Status::RestartRefused(fault) => put_unopened(fault, writer),
        Status::DiskFault => writer.put(b"dakota: restart file failed\n"),
        Status::RestartFull { length } => put_full(*length, writer),
        Status::BenchFault(fault) => put_bench(fault, writer),
        Status::SinkFault(which) => put_unwritten(*which, writer),
        Status::NoMemory => writer.put(b"dakota: out of memory\n"),
        Status::Finished | Status::Aborted => {}
    }
}

fn put_unwritten<U: Sink>(which: Which, writer: &mut Writer<'_, U>)
    ensures { Puts U.held U.faults writer.old writer.new (line (SinkFault which)) }
{
    match which {
        Which::Table => writer.put(b"dakota: table not written\n"),
        Which::Out => {}
    }
}

fn put_full<U: Sink>(length: u64, writer: &mut Writer<'_, U>)
    ensures { Puts U.held U.faults writer.old writer.new (line (RestartFull length)) }
{
    writer.put(b"dakota: restart file full (length ");
    put_number(length as usize, writer);
    writer.put(b")\n");
}

fn put_bench<U: Sink>(fault: &BenchFault, writer: &mut Writer<'_, U>)
    ensures { Puts U.held U.faults writer.old writer.new (line (Status.BenchFault fault.now)) }
{
    writer.put(b"dakota: bench ");
    put_number(fault.slot as usize, writer);
    writer.put(b" failed at ");
    writer.put(step_name(fault.step));
    writer.put(b"\n");
}

fn step_name(step: BenchStep) -> &'static [u8]
    ensures { result.now ≡ step_text step }
{
    match step {
        BenchStep::ClearBefore => b"clear",
        BenchStep::Lay => b"lay",
        BenchStep::Run => b"run",
        BenchStep::Fetch => b"fetch",
        BenchStep::ClearAfter => b"clear after",
    }
}

fn put_unopened<U: Sink>(fault: &OpenFault, writer: &mut Writer<'_, U>)
    ensures { Puts U.held U.faults writer.old writer.new (line (RestartRefused fault.now)) }
{
    writer.put(b"dakota: restart refused: ");
    put_refusal(fault, writer);
    writer.put(b"\n");
}

fn put_refusal<U: Sink>(fault: &OpenFault, writer: &mut Writer<'_, U>)
    ensures { Puts U.held U.faults writer.old writer.new (refusal_text fault.now) }
{
    match fault {
        OpenFault::NotEmpty { length } => put_counted(b"NotEmpty (length ", *length, writer),
        OpenFault::NotARestart => writer.put(b"NotARestart"),
        OpenFault::OtherShape { .. } => writer.put(b"OtherShape"),
        OpenFault::Damaged { offset } => put_counted(b"Damaged (offset ", *offset, writer),
        OpenFault::TooLarge { length } => put_counted(b"TooLarge (length ", *length, writer),
        OpenFault::Disk => writer.put(b"Disk"),
        OpenFault::NoMemory => writer.put(b"NoMemory"),
    }
}

/// A word, a number and a bracket.
fn put_counted<U: Sink>(word: &[u8], number: u64, writer: &mut Writer<'_, U>)
    ensures { Puts U.held U.faults writer.old writer.new (word.now ++ (decimal number ++ codes ")")) }
{
    writer.put(word);
    put_number(number as usize, writer);
    writer.put(b")");
}

fn put_usage<U: Sink>(at: u32, writer: &mut Writer<'_, U>)
    ensures { Puts U.held U.faults writer.old writer.new (line (Usage at)) }
{
    writer.put(b"dakota: usage: word ");
    put_number(at as usize, writer);
    writer.put(b"\n");
}

fn put_refused<U: Sink>(fault: &StudyFault, writer: &mut Writer<'_, U>)
    ensures { Puts U.held U.faults writer.old writer.new (line (StudyRefused fault.now)) }
{
    writer.put(b"dakota: study refused: ");
    writer.put(kind_name(fault.kind));
    writer.put(b" at bytes ");
    put_number(fault.span.from as usize, writer);
    writer.put(b"..");
    put_number(fault.span.to as usize, writer);
    writer.put(b"\n");
}

fn kind_name(kind: StudyKind) -> &'static [u8]
    ensures { result.now ≡ kind_text kind }
{
    match kind {
        StudyKind::TooLong => b"TooLong",
        StudyKind::OpenString => b"OpenString",
        StudyKind::BadByte => b"BadByte",
        StudyKind::UnknownKeyword => b"UnknownKeyword",
        StudyKind::Unsupported => b"Unsupported",
        StudyKind::Repeated => b"Repeated",
        StudyKind::Misplaced => b"Misplaced",
        StudyKind::MissingBlock => b"MissingBlock",
        StudyKind::Missing => b"Missing",
        StudyKind::Conflict => b"Conflict",
        StudyKind::WrongCount => b"WrongCount",
        StudyKind::BadNumber => b"BadNumber",
        StudyKind::BadWhole => b"BadWhole",
        StudyKind::BadLabel => b"BadLabel",
        StudyKind::OutsideBounds => b"OutsideBounds",
        StudyKind::TooMany => b"TooMany",
        StudyKind::OffGrid => b"OffGrid",
    }
}
