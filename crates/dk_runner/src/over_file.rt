// The run of an accepted study over its restart file.
ghost use Rattle.std.specs.Prelude.{◌≡◌, ◌≤◌, [], ◌∷◌, IfOk, IfErr, MatchResult, Some, None};
ghost use Rattle.dk_types.specs.Sound.{IsSound};
ghost use Rattle.dk_types.specs.declared.study.Driver.TheVariants.{Direct};
ghost use Rattle.dk_journal.specs.Openings.{Opens, OpensOverTold};
ghost use Rattle.dk_journal.specs.Sessions.{shape_of};
ghost use Rattle.dk_types.specs.Widths.{HaveWidths};
ghost use Rattle.dk_runner.specs.Endings.{EndsStudy, Reports, Summarizes, Tells, scene};
ghost use Rattle.dk_runner.specs.Headline.{OnlyGrows, Says};
ghost use Rattle.dk_runner.specs.Lines.{line, status_of as status_of_decided, status_of_fault, status_of_refused, status_of_stop};
ghost use Rattle.dk_runner.specs.Outsides.{AllGoTogether, outside_of};
ghost use Rattle.dk_runner.specs.Restarts.{IsNotOpened, most_bytes};

use crate::refusal::refuse;
use crate::{Status, Which};
use dk_book::Book;
use dk_evaluate::{Ledger, Ran, RowPool, Stop, Verdict, evaluate, prepare};
use dk_fork::Station;
use dk_journal::{AppendFault, Journal, OpenFault, Opened, Refused};
use dk_outside::{Bench, Disk, Failed, Mode, Sink};
use dk_report::{write_summary, write_table};
use dk_types::{Ending, Study};
use std::alloc::Global;

/// The most bytes that a restart file may have.
const MOST_BYTES: u64 = 268_435_456;

/// What the run of an accepted study leaves: how it ended, the book, where the restart file was opened, and the disk and the
/// bench that it was given.
#[derive(Drop)]
pub struct Left<K, B> {
    pub status: Status,
    pub book: Option<Book>,
    pub restart: K,
    pub bench: B,
}

/// Evaluates a study over its restart file, with a bench for its children, and writes its texts or the line of what stopped
/// it.
pub fn run_study<K: Disk, T: Sink, U: Sink, B: Bench>(
    alloc: Global,
    study: &Study,
    mode: Mode,
    restart: K,
    bench: B,
    table: &mut T,
    out: &mut U,
) -> Left<K, B>
    requires sound { IsSound study.now }
    requires together { AllGoTogether (B.together bench) }
    ensures grows { OnlyGrows (U.held out.old) (U.held out.new) }
    ensures leaves_table { study.now.table ≡ None → table.new ≡ table.old }
    ensures ends { EndsStudy B.leaves study.now (scene [] None 0 0 (T.held table.old) (T.held table.new) (T.faults table.old) (T.faults table.new)
        (U.held out.old) (U.held out.new) (U.faults out.old) (U.faults out.new))
        (outside_of K.told K.faults B.held B.faults mode restart result.restart result.book (bench ∷ []) (result.bench ∷ [])) (table.new ≡ table.old) result.status }
    ensures not_opened { result.book ≡ None → result.bench ≡ bench }
    ensures direct { study.now.interface.driver ≡ Direct → result.bench ≡ bench }
    ensures after { B.after bench result.bench }
{
    let ledger = match open_ledger(alloc, study, mode, restart) {
        Ok(ledger) => ledger,
        Err(Refused { fault, disk }) => {
            return Left {
                status: refuse(status_of_open(fault), out),
                book: None,
                restart: disk,
                bench,
            };
        }
    };
    match Station::station(alloc, bench, 0, study) {
        Ok(mut station) => match prepare(alloc, study, &ledger) {
            Ok(prepared) => {
                let ran = evaluate(study, &mut station, ledger, prepared);
                report(study, ran, station.give_back(), table, out)
            }
            Err(_) => stop(Status::NoMemory, ledger, station.give_back(), out),
        },
        Err((_, bench)) => stop(Status::NoMemory, ledger, bench, out),
    }
}

/// The journal and the book of a study's restart file.
fn open_ledger<K: Disk>(
    alloc: Global,
    study: &Study,
    mode: Mode,
    restart: K,
) -> Result<Ledger<K>, Refused<K>>
    requires sound { IsSound study.now }
    ensures opened { IfOk result (λ l. Opens mode (shape_of study.now) most_bytes study.now.limit (K.told restart) l.journal l.book) }
    ensures refused { IfErr result (λ r. IsNotOpened study.now mode (K.told restart) (K.told r.disk) (K.faults restart) (K.faults r.disk) r.fault) }
    ensures over { MatchResult result (λ l. OpensOverTold (shape_of study.now) (K.told restart) l.journal.told) (λ r. OpensOverTold (shape_of study.now) (K.told restart) (K.told r.disk)) }
    ensures later { MatchResult result (λ l. K.faults restart ≤ l.journal.faults) (λ r. K.faults restart ≤ K.faults r.disk) }
{
    let Ok(shape) = study.shape(alloc) else {
        return Err(Refused {
            fault: OpenFault::NoMemory,
            disk: restart,
        });
    };
    match Journal::open(
        alloc,
        restart,
        &shape,
        mode,
        MOST_BYTES,
        study.limit as usize,
    ) {
        Ok(Opened { journal, book }) => Ok(Ledger { journal, book }),
        Err(refused) => Err(refused),
    }
}

/// The status of a file that isn't opened.
fn status_of_open(fault: OpenFault) -> Status
    ensures { result ≡ status_of_fault fault }
{
    match fault {
        OpenFault::Disk => Status::DiskFault,
        OpenFault::NoMemory => Status::NoMemory,
        other => Status::RestartRefused(other),
    }
}

/// The status of an entry that isn't appended.
fn status_of_append(fault: AppendFault) -> Status
    ensures { result ≡ status_of_refused fault }
{
    match fault {
        AppendFault::Disk => Status::DiskFault,
        AppendFault::Full { length } => Status::RestartFull { length },
    }
}

/// The status of an attempt that isn't kept.
fn status_of(stop: Stop) -> Status
    ensures { result ≡ status_of_stop stop }
{
    match stop {
        Stop::Append(fault) => status_of_append(fault),
        Stop::Bench(fault) => Status::BenchFault(fault),
    }
}

/// Writes the texts of a study that was decided, or the line of what stopped its evaluation.
fn report<K: Disk, T: Sink, U: Sink, B>(
    study: &Study,
    ran: Ran<K>,
    bench: B,
    table: &mut T,
    out: &mut U,
) -> Left<K, B>
    requires widths { HaveWidths study.now ran.rows.rows }
    ensures grows { OnlyGrows (U.held out.old) (U.held out.new) }
    ensures leaves_table { study.now.table ≡ None → table.new ≡ table.old }
    ensures told { K.told result.restart ≡ ran.ledger.journal.told }
    ensures faults { K.faults result.restart ≡ ran.ledger.journal.faults }
    ensures book { result.book ≡ Some ran.ledger.book }
    ensures bench { result.bench ≡ bench }
    ensures reports { Tells study.now (scene [] None 0 0 (T.held table.old) (T.held table.new) (T.faults table.old) (T.faults table.new)
        (U.held out.old) (U.held out.new) (U.faults out.old) (U.faults out.new)) (table.new ≡ table.old) ran.rows.rows ran.verdict result.status }
{
    let Ran {
        ledger,
        rows,
        verdict,
    } = ran;
    match verdict {
        Verdict::Decided(ending) => {
            let status = write_texts(study, &rows, &ending, table, out);
            give_back(status, ledger, bench)
        }
        Verdict::Stopped(why) => stop(status_of(why), ledger, bench, out),
    }
}

/// Writes the line of what stopped an evaluation.
fn stop<K: Disk, U: Sink, B>(status: Status, ledger: Ledger<K>, bench: B, out: &mut U) -> Left<K, B>
    ensures grows { OnlyGrows (U.held out.old) (U.held out.new) }
    ensures told { K.told result.restart ≡ ledger.journal.told }
    ensures faults { K.faults result.restart ≡ ledger.journal.faults }
    ensures book { result.book ≡ Some ledger.book }
    ensures bench { result.bench ≡ bench }
    ensures status { result.status ≡ status }
    ensures says { Says (U.held out.old) (U.held out.new) (U.faults out.old) (U.faults out.new) (line status) }
{
    give_back(refuse(status, out), ledger, bench)
}

/// What is left with a status, where the restart file was opened.
fn give_back<K: Disk, B>(status: Status, ledger: Ledger<K>, bench: B) -> Left<K, B>
    ensures told { K.told result.restart ≡ ledger.journal.told }
    ensures faults { K.faults result.restart ≡ ledger.journal.faults }
    ensures book { result.book ≡ Some ledger.book }
    ensures bench { result.bench ≡ bench }
    ensures status { result.status ≡ status }
{
    let Ledger { journal, book } = ledger;
    Left {
        status,
        book: Some(book),
        restart: journal.give_back(),
        bench,
    }
}

/// Writes the table and then the summary.
fn write_texts<T: Sink, U: Sink>(
    study: &Study,
    rows: &RowPool,
    ending: &Ending,
    table: &mut T,
    out: &mut U,
) -> Status
    requires widths { HaveWidths study.now rows.now.rows }
    ensures grows { OnlyGrows (U.held out.old) (U.held out.new) }
    ensures leaves_table { study.now.table ≡ None → table.new ≡ table.old }
    ensures reports { Reports study.now rows.now.rows ending.now (T.held table.old) (T.held table.new) (T.faults table.old) (T.faults table.new)
        (U.held out.old) (U.held out.new) (U.faults out.old) (U.faults out.new) result }
{
    match write_table(study, rows, table) {
        Ok(()) => report_summary(study, rows, ending, out),
        Err(Failed) => refuse(Status::SinkFault(Which::Table), out),
    }
}

/// Writes the summary.
fn report_summary<U: Sink>(study: &Study, rows: &RowPool, ending: &Ending, out: &mut U) -> Status
    requires widths { HaveWidths study.now rows.now.rows }
    ensures grows { OnlyGrows (U.held out.old) (U.held out.new) }
    ensures summarizes { Summarizes study.now rows.now.rows ending.now (U.held out.old) (U.held out.new) (U.faults out.old) (U.faults out.new) result }
{
    match write_summary(study, rows, ending, out) {
        Ok(()) => status_of_ending(ending),
        Err(Failed) => Status::SinkFault(Which::Out),
    }
}

/// The status of a study that was decided.
fn status_of_ending(ending: &Ending) -> Status
    ensures { result ≡ status_of_decided ending.now }
{
    match ending {
        Ending::Finished(_) => Status::Finished,
        Ending::Aborted { .. } => Status::Aborted,
    }
}
