// The top call.
ghost use Rattle.std.specs.Prelude.{◌≡◌, ◌≢◌, ℕ, ◌≤◌, [], ◌∷◌, length, map, drop, IfSome, IsTrue, None, string_bytes};
ghost use Rattle.std.specs.List.{All};
ghost use Rattle.dk_outside.specs.Causes.{Rose};
ghost use Rattle.dk_outside.specs.Sources.{IsDrained, TakesAtMost};
ghost use Rattle.dk_types.specs.declared.study.Study.{Study as StudyOf};
ghost use Rattle.dk_reader.specs.declared.fault.StudyFault.{StudyFault};
ghost use Rattle.dk_runner.specs.Accepted.{Accepts, Refused};
ghost use Rattle.dk_runner.specs.Endings.{EndsSo, scene};
ghost use Rattle.dk_runner.specs.Headline.{InMode, StopsOver, Written, BreaksTable, BreaksSummary, Says, OnlyGrows, EndsDecided, CanRun, TellsRefusal, WithoutTable, WithoutDriver};
ghost use Rattle.dk_runner.specs.Lines.{line, is_decided, is_early, is_read, is_before_file, has_line};
ghost use Rattle.dk_runner.specs.Outsides.{AllGoTogether, AreAfter, first_faults, outside_of};
ghost use Rattle.dk_runner.specs.Restarts.{LeavesFile, KeepsAll};
ghost use Rattle.dk_words.specs.Words.{IsFor, Misused};

use crate::accept::accept;
use crate::benches::{put_first, take_first};
use crate::over_file::{Left, run_study};
use crate::refusal::refuse;
use crate::{Purpose, Status, Which};
use dk_book::Book;
use dk_outside::{Bench, Disk, Mode, Sink, Source};
use dk_words::mode_of;
use std::alloc::Global;

/// What a run leaves: how it ended, the book of what is known of attempts, where the restart file was opened, and the
/// restart file and the benches that it was given.
#[derive(Drop)]
pub struct Ended<K, B> {
    pub status: Status,
    pub book: Option<Book>,
    pub restart: K,
    pub benches: Vec<B>,
}

/// Does all that the program does.
///
/// The words are `-i FILE`, with `-r FILE` or `-w FILE` where they name the restart file, and `study` is the source over the
/// study's file. Its text is read, the restart file is opened, and the study is evaluated one point after another under its
/// rule for failures, by the program's own function or by a child on the first bench: an attempt that the file holds isn't
/// made again, and each one that is made is appended to it before it counts. Then the table and the summary are written. Each
/// study that a text may say is run, of each of the five methods; a compass search chooses its points by the values so far.
///
/// `restart` is the restart file's disk, opened as the words say: `mode_of` tells in which mode. At least 64 benches are handed
/// in, and come back in their order; on each of them all names of two files go together. It may wait for a child.
pub fn dakota<S: Source, K: Disk, T: Sink, U: Sink, B: Bench>(
    alloc: Global,
    words: &[String],
    study: &mut S,
    restart: K,
    table: &mut T,
    out: &mut U,
    mut benches: Vec<B>,
) -> Ended<K, B>
    requires benches { 64 ≤ length benches.items }
    requires together { All (λ bench. AllGoTogether (B.together bench)) benches.items }

    // A run that finishes or aborts writes the table and the summary of evaluating the study one point at a time, each
    // attempt answered as the restart file has it at the end. Where each attempt can have just one outcome, and the file stood
    // for such at the start, as an empty one does, that is the evaluation over this child, or over the program's own function.
    ensures decided { IsTrue (is_decided result.status) → InMode (map string_bytes words.now) (λ mode. IfSome (S.left study.old) (λ text.
        Written B.leaves text (outside_of K.told K.faults B.held B.faults mode restart result.restart result.book benches.items result.benches.items) result.status (T.held table.old) (T.held table.new) (U.held out.old) (U.held out.new))) }

    // The study's text was taken to its end, also where it is refused, but for one that is too long.
    ensures taken { IsTrue (is_read result.status) → IsDrained (S.left study.old) (S.left study.new) }

    // The words are refused exactly where they aren't those of a run.
    ensures usage { (at : ℕ) → result.status ≡ Status.Usage at → Misused Purpose.Run (map string_bytes words.now) at }
    ensures misused { (at : ℕ) → Misused Purpose.Run (map string_bytes words.now) at → result.status ≡ Status.Usage at }

    // A study is refused only by its text, and always where its source didn't fail.
    ensures refused { (fault : StudyFault) → result.status ≡ Status.StudyRefused fault → IfSome (S.left study.old) (λ text. Refused text fault) }
    ensures refusal_told { IsFor Purpose.Run (map string_bytes words.now) → ¬ Rose (S.faults study.old) (S.faults study.new) →
        IfSome (S.left study.old) (λ text. TellsRefusal text result.status) }

    // A fault of the outside is answered only where that object's count of faults rose.
    ensures source { result.status ≡ Status.SourceFault → Rose (S.faults study.old) (S.faults study.new) }
    ensures in_time { result.status ≡ Status.SourceFault → TakesAtMost 1048576 (S.left study.old) (S.left study.new) }
    ensures table_fault { result.status ≡ Status.SinkFault Which.Table → Rose (T.faults table.old) (T.faults table.new) }
    ensures out_fault { result.status ≡ Status.SinkFault Which.Out → Rose (U.faults out.old) (U.faults out.new) }

    // A restart file is refused, fails or is full, and a bench fails, only by its cause, while the study isn't decided.
    ensures stops { InMode (map string_bytes words.now) (λ mode. IfSome (S.left study.old) (λ text.
        StopsOver B.leaves text (outside_of K.told K.faults B.held B.faults mode restart result.restart result.book benches.items result.benches.items) result.status)) }

    // The restart file is left as it was, or gone on with. No attempt that it holds is made again, and a duplicate starts
    // nothing: each child that ran is that of an attempt for which the study waited, and each such attempt is in the file, but
    // for the last one where the disk or the bench failed or the file is full.
    ensures file { InMode (map string_bytes words.now) (λ mode. IfSome (S.left study.old) (λ text. (s : StudyOf) → Accepts text s →
        LeavesFile B.leaves s (outside_of K.told K.faults B.held B.faults mode restart result.restart result.book benches.items result.benches.items))) }

    // Where nothing fails and there is room, each child that ran is that of an attempt that the file has.
    ensures keeps_all { ¬ Rose (K.faults restart) (K.faults result.restart) → ¬ Rose (first_faults B.faults benches.items) (first_faults B.faults result.benches.items) →
        ((size : ℕ) → result.status ≢ Status.RestartFull size) → InMode (map string_bytes words.now) (λ mode. IfSome (S.left study.old) (λ text. (s : StudyOf) → Accepts text s →
        KeepsAll B.leaves s (outside_of K.told K.faults B.held B.faults mode restart result.restart result.book benches.items result.benches.items))) }

    // What the sinks hold then.
    ensures table_front { result.status ≡ Status.SinkFault Which.Table → InMode (map string_bytes words.now) (λ mode. IfSome (S.left study.old) (λ text.
        BreaksTable B.leaves text (outside_of K.told K.faults B.held B.faults mode restart result.restart result.book benches.items result.benches.items) (T.held table.old) (T.held table.new))) }
    ensures summary_front { result.status ≡ Status.SinkFault Which.Out → InMode (map string_bytes words.now) (λ mode. IfSome (S.left study.old) (λ text.
        BreaksSummary B.leaves text (outside_of K.told K.faults B.held B.faults mode restart result.restart result.book benches.items result.benches.items) (T.held table.old) (T.held table.new) (U.held out.old) (U.held out.new))) }

    // Where nothing fails, a study that is accepted, and whose restart file can be opened and has room, is decided, or there
    // is no memory.
    ensures complete { IsFor Purpose.Run (map string_bytes words.now) → ¬ Rose (S.faults study.old) (S.faults study.new) → ¬ Rose (K.faults restart) (K.faults result.restart) →
        ¬ Rose (first_faults B.faults benches.items) (first_faults B.faults result.benches.items) → ¬ Rose (T.faults table.old) (T.faults table.new) → ¬ Rose (U.faults out.old) (U.faults out.new) →
        InMode (map string_bytes words.now) (λ mode. IfSome (S.left study.old) (λ text. CanRun text (outside_of K.told K.faults B.held B.faults mode restart result.restart result.book benches.items result.benches.items) → EndsDecided result.status)) }

    // Every other status has its line on `out`, and the table isn't touched before the study is decided.
    ensures says { IsTrue (has_line result.status) → Says (U.held out.old) (U.held out.new) (U.faults out.old) (U.faults out.new) (line result.status) }
    ensures no_table { IsTrue (is_early result.status) → table.new ≡ table.old }

    // Where the text says a study that asks for no table, the table isn't touched, whatever the status.
    ensures no_table_asked { IfSome (S.left study.old) (λ text. WithoutTable text (table.new ≡ table.old)) }

    // Standard output is never begun.
    ensures never_begun { OnlyGrows (U.held out.old) (U.held out.new) }

    // Before a study is accepted the restart file isn't called. Only the first bench is called, where the file was opened and
    // the study has a driver; it comes back as one that it can become by calls.
    ensures restart_kept { IsTrue (is_before_file result.status) → result.restart ≡ restart }
    ensures not_opened { result.book ≡ None → result.benches.items ≡ benches.items }
    ensures direct { IfSome (S.left study.old) (λ text. WithoutDriver text (result.benches.items ≡ benches.items)) }
    ensures others { drop 1 result.benches.items ≡ drop 1 benches.items }
    ensures after { AreAfter B.after benches.items result.benches.items }
{
    let bench = take_first(&mut benches);
    let left = run(
        alloc,
        words,
        mode_of(words),
        study,
        restart,
        bench,
        table,
        out,
    );
    put_first(&mut benches, left.bench);
    Ended {
        status: left.status,
        book: left.book,
        restart: left.restart,
        benches,
    }
}

fn run<S: Source, K: Disk, T: Sink, U: Sink, B: Bench>(
    alloc: Global,
    words: &[String],
    mode: Mode,
    source: &mut S,
    restart: K,
    bench: B,
    table: &mut T,
    out: &mut U,
) -> Left<K, B>
    requires together { AllGoTogether (B.together bench) }
    ensures taken { IsTrue (is_read result.status) → IsDrained (S.left source.old) (S.left source.new) }
    ensures in_time { result.status ≡ Status.SourceFault → TakesAtMost 1048576 (S.left source.old) (S.left source.new) }
    ensures no_table_asked { IfSome (S.left source.old) (λ text. WithoutTable text (table.new ≡ table.old)) }
    ensures grows { OnlyGrows (U.held out.old) (U.held out.new) }
    ensures ends { EndsSo B.leaves (scene (map string_bytes words.now) (S.left source.old) (S.faults source.old) (S.faults source.new)
        (T.held table.old) (T.held table.new) (T.faults table.old) (T.faults table.new)
        (U.held out.old) (U.held out.new) (U.faults out.old) (U.faults out.new))
        (outside_of K.told K.faults B.held B.faults mode restart result.restart result.book (bench ∷ []) (result.bench ∷ []))
        (table.new ≡ table.old) ((result.restart ≡ restart) × (result.bench ≡ bench)) result.status }
    ensures not_opened { result.book ≡ None → result.bench ≡ bench }
    ensures direct { IfSome (S.left source.old) (λ text. WithoutDriver text (result.bench ≡ bench)) }
    ensures after { B.after bench result.bench }
{
    match accept(alloc, Purpose::Run, words, source) {
        Ok(study) => run_study(alloc, &study, mode, restart, bench, table, out),
        Err(status) => Left {
            status: refuse(status, out),
            book: None,
            restart,
            bench,
        },
    }
}
