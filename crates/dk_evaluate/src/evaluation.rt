// The evaluation of a study, one point after another, over a book and the journal that keeps its attempts.
ghost use Rattle.std.specs.Prelude.{◌≡◌, ◌+◌, ◌<◌, ◌≤◌, List, [], length, IfOk, Option, None, Some};
ghost use Rattle.dk_outside.specs.Benches.{Contents};
ghost use Rattle.dk_types.specs.declared.study.Driver.TheVariants.{Direct};
ghost use Rattle.dk_params.specs.Params.{task_of};
ghost use Rattle.dk_types.specs.declared.entry.Entry.{Entry};
ghost use Rattle.dk_types.specs.Planned.{rest, next, At, AnswersBatch, AnswersLast};
ghost use Rattle.dk_types.specs.Sound.{IsSound};
ghost use Rattle.dk_types.specs.Widths.{HaveWidths};
ghost use Rattle.dk_journal.specs.Journals.{JournalState};
ghost use Rattle.dk_evaluate.specs.Keeping.{Keeps};
ghost use Rattle.dk_evaluate.specs.Evaluated.{IsOpen, Runs, TakesNumber};
ghost use Rattle.dk_evaluate.specs.Attempted.{IsItsFault};
ghost use Rattle.dk_evaluate.specs.declared.settle.Stop.{Stop as StopOf};
ghost use Rattle.dk_evaluate.specs.Turns.{IsSoFar, IsPrepared, EndsSo, EndsRun, GetsRow};

use crate::ledger::Ledger;
use crate::rows::RowPool;
use crate::settle::{Settled, Stop, settle};
use dk_book::{Book, CardId};
use dk_fork::Station;
use dk_method::{Planning, plan_of};
use dk_num::Dec;
use dk_outside::{Bench, Disk};
use dk_types::{Ending, Plan, Planner, Rows, Study};
use std::alloc::{AllocError, Global};

/// How an evaluation ended.
#[derive(Clone, Copy, Debug)]
pub enum Verdict {
    /// The study was decided.
    Decided(Ending),
    /// The study waits for an attempt that isn't in the journal.
    Stopped(Stop),
}

/// An evaluation that ended: the attempts that were made, the rows, and how it ended.
#[derive(Drop)]
pub struct Ran<K: Disk> {
    pub ledger: Ledger<K>,
    pub rows: RowPool,
    pub verdict: Verdict,
}

/// An evaluation under way: the attempts that were made, the rows so far, for each card the number of the first row
/// with its point (0 where there is none), and room for a point and for its values.
#[derive(Drop)]
struct Evaluation<K: Disk> {
    ledger: Ledger<K>,
    table: Table,
}

/// The rows so far, for each card the number of the first row with its point, and room for a point and its values.
#[derive(Drop)]
struct Table {
    rows: RowPool,
    firsts: Vec<u32>,
    point: Vec<Dec>,
    values: Vec<Dec>,
}

/// All memory that an evaluation takes besides its ledger: the plan of the study, and room for its rows.
#[derive(Drop)]
pub struct Prepared {
    planning: Planning,
    table: Table,
}

/// Takes the memory for the evaluation of a study over what is known of attempts.
pub fn prepare<K: Disk>(
    alloc: Global,
    study: &Study,
    ledger: &Ledger<K>,
) -> Result<Prepared, AllocError>
    requires sound { IsSound study.now }
    requires variables { ledger.now.book.variables ≡ length study.now.variables.labels }
    requires responses { ledger.now.book.responses ≡ length study.now.responses.labels }
    requires spare { study.now.limit ≤ ledger.now.book.spare }
    requires room { study.now.limit ≤ ledger.now.book.room }
    ensures { IfOk result (λ prepared. IsPrepared study.now ledger.now.book prepared) }
{
    let variables = study.variables.labels.items().len();
    let responses = study.responses.labels.items().len();
    let limit = study.limit as usize;
    Ok(Prepared {
        planning: plan_of(alloc, study)?,
        table: Table {
            rows: RowPool::reserve(alloc, limit, variables, responses)?,
            firsts: vec![in alloc; 0; places(&ledger.book)]?,
            point: vec![in alloc; Dec::whole(0); variables]?,
            values: vec![in alloc; Dec::whole(0); responses]?,
        },
    })
}

/// How many cards a book can have, with those that it has.
fn places(book: &Book) -> usize
    ensures { result ≡ length book.now.cards + book.now.spare }
{
    book.count() + book.spare()
}

/// Evaluates the points of a study, one after another, up to the first that has no values under the study's rule. Each
/// attempt that isn't known is made, and appended to the journal before it counts; one that is known isn't made again.
pub fn evaluate<K: Disk, B: Bench>(
    study: &Study,
    station: &mut Station<B>,
    ledger: Ledger<K>,
    prepared: Prepared,
) -> Ran<K>
    requires sound { IsSound study.now }
    requires task { station.old.task ≡ task_of study.now }
    requires opened { IsOpen study.now ledger.book ledger.journal }
    requires prepared { IsPrepared study.now ledger.book prepared }
    ensures ends { (before : List Entry) → Keeps ledger.book ledger.journal before →
        EndsRun B.leaves study.now ledger.journal (B.held station.old.bench) before result.ledger.book result.ledger.journal (B.held station.new.bench) result.rows.rows result.verdict }
    ensures widths { HaveWidths study.now result.rows.rows }
    ensures variables { result.ledger.book.variables ≡ length study.now.variables.labels }
    ensures responses { result.ledger.book.responses ≡ length study.now.responses.labels }
    ensures task { station.new.task ≡ station.old.task }
    ensures slot { station.new.slot ≡ station.old.slot }
    ensures direct { study.now.interface.driver ≡ Direct → station.new.bench ≡ station.old.bench }
    ensures after { B.after station.old.bench station.new.bench }
    ensures cause { (stop : StopOf) → result.verdict ≡ Verdict.Stopped stop → IsItsFault station.old.slot (B.faults station.old.bench) (B.faults station.new.bench) stop }
    ensures later { B.faults station.old.bench ≤ B.faults station.new.bench }
{
    let Prepared {
        mut planning,
        table,
    } = prepared;
    let mut run = Evaluation { ledger, table };
    let verdict = evaluate_batches(station, &mut planning, study, &mut run);
    Ran {
        ledger: run.ledger,
        rows: run.table.rows,
        verdict,
    }
}

/// Evaluates one batch of points after another, up to the end, and adds their rows.
fn evaluate_batches<K: Disk, B: Bench, P: Planner>(
    station: &mut Station<B>,
    planning: &mut P,
    study: &Study,
    run: &mut Evaluation<K>,
) -> Verdict
    requires sound { IsSound study.now }
    requires task { station.old.task ≡ task_of study.now }
    requires study { P.study planning.old ≡ study.now }
    requires new { AnswersLast (P.was_given planning.old) (P.batch planning.old) [] }
    requires opened { IsOpen study.now run.old.ledger.book run.old.ledger.journal }
    requires so_far { IsSoFar study.now run.old.ledger.book run.old.table }
    requires none { run.old.table.rows.rows ≡ [] }
    ensures ends { (start : JournalState) (bench : Option Contents) (before : List Entry) → Runs B.leaves study.now start bench before run.old.ledger.book run.old.ledger.journal (B.held station.old.bench) run.old.table.rows.rows →
        EndsRun B.leaves study.now start bench before run.new.ledger.book run.new.ledger.journal (B.held station.new.bench) run.new.table.rows.rows result }
    ensures widths { HaveWidths study.now run.new.table.rows.rows }
    ensures variables { run.new.ledger.book.variables ≡ length study.now.variables.labels }
    ensures responses { run.new.ledger.book.responses ≡ length study.now.responses.labels }
    ensures task { station.new.task ≡ station.old.task }
    ensures slot { station.new.slot ≡ station.old.slot }
    ensures direct { study.now.interface.driver ≡ Direct → station.new.bench ≡ station.old.bench }
    ensures after { B.after station.old.bench station.new.bench }
    ensures cause { (stop : StopOf) → result ≡ Verdict.Stopped stop → IsItsFault station.old.slot (B.faults station.old.bench) (B.faults station.new.bench) stop }
    ensures later { B.faults station.old.bench ≤ B.faults station.new.bench }
{
    loop {
        match planning.next(&run.table.rows) {
            Plan::Finished(why) => return Verdict::Decided(Ending::Finished(why)),
            Plan::Batch { first, count } => {
                if let Some(verdict) = evaluate_batch(station, planning, study, first, count, run) {
                    return verdict;
                }
            }
        }
    }
}

/// Evaluates the points of a batch up to the first that has no values, and adds their rows.
fn evaluate_batch<K: Disk, B: Bench, P: Planner>(
    station: &mut Station<B>,
    planner: &P,
    study: &Study,
    first: u32,
    count: u32,
    run: &mut Evaluation<K>,
) -> Option<Verdict>
    requires sound { IsSound study.now }
    requires task { station.old.task ≡ task_of study.now }
    requires opened { IsOpen study.now run.old.ledger.book run.old.ledger.journal }
    requires so_far { IsSoFar study.now run.old.ledger.book run.old.table }
    requires study { P.study planner.now ≡ study.now }
    requires before { P.before planner.now ≡ length run.old.table.rows.rows }
    requires batch { P.batch planner.now ≡ rest study.now run.old.table.rows.rows }
    requires first { first ≡ length run.old.table.rows.rows + 1 }
    requires count { count ≡ length (rest study.now run.old.table.rows.rows) }
    ensures ends { (start : JournalState) (bench : Option Contents) (before : List Entry) → Runs B.leaves study.now start bench before run.old.ledger.book run.old.ledger.journal (B.held station.old.bench) run.old.table.rows.rows →
        EndsSo B.leaves study.now start bench before run.new.ledger.book run.new.ledger.journal (B.held station.new.bench) run.new.table.rows.rows result }
    ensures answers { result ≡ None → AnswersBatch run.old.table.rows.rows (rest study.now run.old.table.rows.rows) run.new.table.rows.rows }
    ensures opened { result ≡ None → IsOpen study.now run.new.ledger.book run.new.ledger.journal }
    ensures so_far { result ≡ None → IsSoFar study.now run.new.ledger.book run.new.table }
    ensures widths { HaveWidths study.now run.new.table.rows.rows }
    ensures variables { run.new.ledger.book.variables ≡ length study.now.variables.labels }
    ensures responses { run.new.ledger.book.responses ≡ length study.now.responses.labels }
    ensures task { station.new.task ≡ station.old.task }
    ensures slot { station.new.slot ≡ station.old.slot }
    ensures direct { study.now.interface.driver ≡ Direct → station.new.bench ≡ station.old.bench }
    ensures after { B.after station.old.bench station.new.bench }
    ensures cause { (stop : StopOf) → result ≡ Some (Verdict.Stopped stop) → IsItsFault station.old.slot (B.faults station.old.bench) (B.faults station.new.bench) stop }
    ensures later { B.faults station.old.bench ≤ B.faults station.new.bench }
{
    for row in first..first + count {
        planner.point(row, &mut run.table.point);
        if let Some(verdict) = evaluate_point(station, study, run) {
            return Some(verdict);
        }
    }
    None
}

/// Evaluates the point that was written, and adds its row; or tells how the evaluation ends with it.
fn evaluate_point<K: Disk, B: Bench>(
    station: &mut Station<B>,
    study: &Study,
    run: &mut Evaluation<K>,
) -> Option<Verdict>
    requires sound { IsSound study.now }
    requires task { station.old.task ≡ task_of study.now }
    requires opened { IsOpen study.now run.old.ledger.book run.old.ledger.journal }
    requires so_far { IsSoFar study.now run.old.ledger.book run.old.table }
    requires left { length run.old.table.rows.rows < study.now.limit }
    ensures ends { (start : JournalState) (bench : Option Contents) (before : List Entry) → Runs B.leaves study.now start bench before run.old.ledger.book run.old.ledger.journal (B.held station.old.bench) run.old.table.rows.rows →
        next study.now run.old.table.rows.rows ≡ At run.old.table.point.items →
        EndsSo B.leaves study.now start bench before run.new.ledger.book run.new.ledger.journal (B.held station.new.bench) run.new.table.rows.rows result }
    ensures row { result ≡ None → GetsRow run.old.table.point.items run.old.table.rows.rows run.new.table.rows.rows }
    ensures opened { result ≡ None → IsOpen study.now run.new.ledger.book run.new.ledger.journal }
    ensures so_far { result ≡ None → IsSoFar study.now run.new.ledger.book run.new.table }
    ensures widths { HaveWidths study.now run.new.table.rows.rows }
    ensures variables { run.new.ledger.book.variables ≡ length study.now.variables.labels }
    ensures responses { run.new.ledger.book.responses ≡ length study.now.responses.labels }
    ensures task { station.new.task ≡ station.old.task }
    ensures slot { station.new.slot ≡ station.old.slot }
    ensures direct { study.now.interface.driver ≡ Direct → station.new.bench ≡ station.old.bench }
    ensures after { B.after station.old.bench station.new.bench }
    ensures cause { (stop : StopOf) → result ≡ Some (Verdict.Stopped stop) → IsItsFault station.old.slot (B.faults station.old.bench) (B.faults station.new.bench) stop }
    ensures later { B.faults station.old.bench ≤ B.faults station.new.bench }
{
    let card = run.ledger.book.place(&run.table.point);
    let number = run.table.rows.count() + 1;
    let rule = &study.interface.rule;
    match settle(
        station,
        &mut run.ledger,
        rule,
        card,
        number,
        &run.table.point,
        &mut run.table.values,
    ) {
        Settled::Dead { attempts } => Some(Verdict::Decided(Ending::Aborted {
            evaluation: number,
            attempts,
        })),
        Settled::Stopped(stop) => Some(Verdict::Stopped(stop)),
        Settled::Values => {
            let first = first_row(&mut run.table.firsts, card, number);
            run.table
                .rows
                .push(&run.table.point, &run.table.values, first);
            None
        }
    }
}

/// The number of the first row with a card's point, which is this one where there was none.
fn first_row(firsts: &mut [u32], card: CardId, number: u32) -> u32
    requires { card.index < length firsts.old }
    ensures { TakesNumber firsts.old firsts.new card.index number result }
{
    let first = &mut firsts[card.index as usize];
    if *first == 0 {
        *first = number;
    }
    *first
}
