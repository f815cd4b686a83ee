// The attempts of one point.
ghost use Rattle.std.specs.Prelude.{◌≡◌, ◌+◌, ◌≤◌, ℕ, List, length, slice_get, option_map, IfSome, IfErr, Some, None};
ghost use Rattle.dk_types.specs.declared.entry.Entry.{Entry};
ghost use Rattle.dk_types.specs.declared.study.Driver.TheVariants.{Direct};
ghost use Rattle.dk_types.specs.Sound.{IsSoundRule};
ghost use Rattle.dk_book.specs.Books.{IsBook, IsDue};
ghost use Rattle.dk_journal.specs.Journals.{IsReadyFor};
ghost use Rattle.dk_evaluate.specs.Keeping.{Keeps, KeepSome, AreAlike, WaitsFor, entry_with};
ghost use Rattle.dk_evaluate.specs.Evaluated.{Settles, SettlesBook};
ghost use Rattle.dk_evaluate.specs.Attempted.{Attempted, KeptSo, IsItsFault, said_as};
ghost use Rattle.dk_evaluate.specs.declared.settle.Stop.{Stop as StopOf};

use crate::ledger::Ledger;
use dk_book::{Answer, CardId};
use dk_fork::{BenchFault, Job, Station};
use dk_journal::AppendFault;
use dk_num::Dec;
use dk_outside::{Bench, Disk};
use dk_results::Reading;
use dk_types::{FailRule, Outcome};

/// Why an attempt for which the study waits isn't in the journal.
#[derive(Clone, Copy, Debug, PartialEq, Eq)]
pub enum Stop {
    /// It was made, and not appended.
    Append(AppendFault),
    /// A call of its bench failed.
    Bench(BenchFault),
}

/// What became of a point.
#[derive(Clone, Copy, Debug, PartialEq, Eq)]
pub enum Settled {
    /// It has values.
    Values,
    /// It has none, after so many attempts.
    Dead { attempts: u32 },
    /// One of its attempts isn't in the journal.
    Stopped(Stop),
}

/// Attempts the point of a row until its attempts come to its values, which are written, or to its end after so many
/// attempts. Each attempt is in the journal before it counts.
pub fn settle<K: Disk, B: Bench>(
    station: &mut Station<B>,
    ledger: &mut Ledger<K>,
    rule: &FailRule,
    card: CardId,
    row: u32,
    point: &[Dec],
    values: &mut [Dec],
) -> Settled
    requires book { IsBook ledger.old.book }
    requires keeps { KeepSome ledger.old.book ledger.old.journal }
    requires alike { AreAlike ledger.old.book ledger.old.journal }
    requires width { length point.now ≡ ledger.old.book.variables }
    requires variables { ledger.old.book.variables ≡ length station.old.task.variables }
    requires responses { ledger.old.book.responses ≡ length station.old.task.responses }
    requires rule { IsSoundRule ledger.old.book.responses rule.now }
    requires card { option_map (λ c. c.point) (slice_get ledger.old.book.cards card.index) ≡ Some point.now }
    requires values { length values.old ≡ ledger.old.book.responses }
    requires room { 1 ≤ ledger.old.book.room }
    ensures settles { (entries : List Entry) → Keeps ledger.old.book ledger.old.journal entries →
        Settles B.leaves station.old.task rule.now row point.now values.new ledger.new.book ledger.old.journal ledger.new.journal (B.held station.old.bench) (B.held station.new.bench) entries result }
    ensures values { length values.new ≡ length values.old }
    ensures book { SettlesBook ledger.old.book ledger.new.book }
    ensures task { station.new.task ≡ station.old.task }
    ensures slot { station.new.slot ≡ station.old.slot }
    ensures direct { station.old.task.interface.driver ≡ Direct → station.new.bench ≡ station.old.bench }
    ensures after { B.after station.old.bench station.new.bench }
    ensures cause { (stop : StopOf) → result ≡ Settled.Stopped stop → IsItsFault station.old.slot (B.faults station.old.bench) (B.faults station.new.bench) stop }
    ensures later { B.faults station.old.bench ≤ B.faults station.new.bench }
{
    loop {
        match ledger.book.answer(rule, card) {
            Answer::Value(given) => {
                values.copy_from_slice(given);
                return Settled::Values;
            }
            Answer::Dead { attempts } => return Settled::Dead { attempts },
            Answer::Next { attempt } => {
                let job = Job { row, attempt };
                match attempt_point(station, ledger, card, &job, point) {
                    Ok(()) => {}
                    Err(stop) => return Settled::Stopped(stop),
                }
            }
        }
    }
}

/// Makes the next attempt of a point, and keeps what it gave.
fn attempt_point<K: Disk, B: Bench>(
    station: &mut Station<B>,
    ledger: &mut Ledger<K>,
    card: CardId,
    job: &Job,
    point: &[Dec],
) -> Result<(), Stop>
    requires card { option_map (λ c. c.point) (slice_get ledger.old.book.cards card.index) ≡ Some point.now }
    requires due { IfSome (slice_get ledger.old.book.cards card.index) (λ c. IsDue c job.now.attempt) }
    requires book { IsBook ledger.old.book }
    requires variables { length point.now ≡ length station.old.task.variables }
    requires responses { ledger.old.book.responses ≡ length station.old.task.responses }
    requires room { 1 ≤ ledger.old.book.room }
    requires alike { AreAlike ledger.old.book ledger.old.journal }
    requires waits { WaitsFor ledger.old.journal point.now job.now.attempt }
    ensures attempted { Attempted B.leaves station.old.task job.now.row card.index point.now job.now.attempt ledger.old.book ledger.new.book ledger.old.journal ledger.new.journal (B.held station.old.bench) (B.held station.new.bench) result }
    ensures task { station.new.task ≡ station.old.task }
    ensures slot { station.new.slot ≡ station.old.slot }
    ensures direct { station.old.task.interface.driver ≡ Direct → station.new.bench ≡ station.old.bench }
    ensures after { B.after station.old.bench station.new.bench }
    ensures cause { IfErr result (λ stop. IsItsFault station.old.slot (B.faults station.old.bench) (B.faults station.new.bench) stop) }
    ensures later { B.faults station.old.bench ≤ B.faults station.new.bench }
{
    match station.attempt(job, point) {
        Ok(reading) => keep_reading(station, ledger, card, job, point, reading),
        Err(fault) => Err(Stop::Bench(fault)),
    }
}

/// Keeps what an attempt gave.
fn keep_reading<K: Disk, B: Bench>(
    station: &Station<B>,
    ledger: &mut Ledger<K>,
    card: CardId,
    job: &Job,
    point: &[Dec],
    reading: Reading,
) -> Result<(), Stop>
    requires card { option_map (λ c. c.point) (slice_get ledger.old.book.cards card.index) ≡ Some point.now }
    requires due { IfSome (slice_get ledger.old.book.cards card.index) (λ c. IsDue c job.now.attempt) }
    requires values { length station.now.values ≡ ledger.old.book.responses }
    requires room { 1 ≤ ledger.old.book.room }
    requires ready { IsReadyFor ledger.old.journal (entry_with point.now job.now.attempt (said_as reading station.now.values)) }
    ensures kept { KeptSo (said_as reading station.now.values) card.index point.now job.now.attempt ledger.old.book ledger.new.book ledger.old.journal ledger.new.journal result }
{
    let attempt = job.attempt;
    let kept = match reading {
        Reading::Values => ledger.keep(card, attempt, point, Outcome::Values(station.values())),
        Reading::Failed => ledger.keep(card, attempt, point, Outcome::Failed),
    };
    match kept {
        Ok(()) => Ok(()),
        Err(fault) => Err(Stop::Append(fault)),
    }
}
