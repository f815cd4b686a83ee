// A study that is read and not run.
ghost use Rattle.std.specs.Prelude.{◌≡◌, ◌≤◌, ℕ, map, IfSome, IsTrue, string_bytes};
ghost use Rattle.dk_outside.specs.Causes.{Rose};
ghost use Rattle.dk_outside.specs.Flows.{Puts};
ghost use Rattle.dk_outside.specs.Sources.{IsDrained, TakesAtMost};
ghost use Rattle.dk_reader.specs.declared.fault.StudyFault.{StudyFault};
ghost use Rattle.dk_runner.specs.Accepted.{Refused};
ghost use Rattle.dk_runner.specs.Checked.{TellsAccepted, BreaksAccepted, EndsAccepted, TellsStudy, ChecksSo, accepted_line, stage};
ghost use Rattle.dk_runner.specs.Headline.{Says, OnlyGrows, TellsRefusal};
ghost use Rattle.dk_runner.specs.Lines.{line, is_read, has_line};
ghost use Rattle.dk_words.specs.Words.{IsFor, Misused};

use crate::accept::accept;
use crate::refusal::refuse;
use crate::{Purpose, Status, Which};
use dk_outside::{Failed, Sink, Source, Writer};
use dk_report::put_number;
use dk_types::Study;
use std::alloc::Global;

/// Does all that the program does with `-check`.
///
/// The words are `-i FILE` and `-check`, and `study` is the source over that file. Its text is read, and where it is a
/// study's one line on `out` tells how many variables and responses it has and how many evaluations at most. Nothing is
/// evaluated.
pub fn check<S: Source, U: Sink>(
    alloc: Global,
    words: &[String],
    study: &mut S,
    out: &mut U,
) -> Status
    // A check that finishes has read a study to its end, and has written the study's line.
    ensures accepted { result ≡ Status.Finished → IfSome (S.left study.old) (λ text. TellsAccepted text (U.held out.old) (U.held out.new)) }

    // The study's text was taken to its end, also where it is refused, but for one that is too long.
    ensures taken { IsTrue (is_read result) → IsDrained (S.left study.old) (S.left study.new) }

    // The words are refused exactly where they aren't those of a check.
    ensures usage { (at : ℕ) → result ≡ Status.Usage at → Misused Purpose.Check (map string_bytes words.now) at }
    ensures misused { (at : ℕ) → Misused Purpose.Check (map string_bytes words.now) at → result ≡ Status.Usage at }

    // A study is refused only by its text.
    ensures refused { (fault : StudyFault) → result ≡ Status.StudyRefused fault → IfSome (S.left study.old) (λ text. Refused text fault) }

    // Where nothing fails, a text is refused or accepted as it is, or there is no memory.
    ensures refusal_told { IsFor Purpose.Check (map string_bytes words.now) → ¬ Rose (S.faults study.old) (S.faults study.new) →
        IfSome (S.left study.old) (λ text. TellsRefusal text result) }
    ensures accepted_told { IsFor Purpose.Check (map string_bytes words.now) → ¬ Rose (S.faults study.old) (S.faults study.new) → ¬ Rose (U.faults out.old) (U.faults out.new) →
        IfSome (S.left study.old) (λ text. EndsAccepted text result) }

    // A fault of the outside is answered only where that object's count of faults rose.
    ensures source { result ≡ Status.SourceFault → Rose (S.faults study.old) (S.faults study.new) }
    ensures in_time { result ≡ Status.SourceFault → TakesAtMost 1048576 (S.left study.old) (S.left study.new) }
    ensures out_fault { result ≡ Status.SinkFault Which.Out → Rose (U.faults out.old) (U.faults out.new) }

    // What `out` holds where it failed for the study's line.
    ensures out_front { result ≡ Status.SinkFault Which.Out → IfSome (S.left study.old) (λ text. BreaksAccepted text (U.held out.old) (U.held out.new)) }

    // Nothing is evaluated, and no table written.
    ensures never_run { (result ≡ Status.Aborted → ⊥) × (result ≡ Status.SinkFault Which.Table → ⊥) }

    // Every other status has its line on `out`, which is never begun.
    ensures says { IsTrue (has_line result) → Says (U.held out.old) (U.held out.new) (U.faults out.old) (U.faults out.new) (line result) }
    ensures never_begun { OnlyGrows (U.held out.old) (U.held out.new) }
{
    check_study(alloc, words, study, out)
}

fn check_study<S: Source, U: Sink>(
    alloc: Global,
    words: &[String],
    source: &mut S,
    out: &mut U,
) -> Status
    ensures taken { IsTrue (is_read result) → IsDrained (S.left source.old) (S.left source.new) }
    ensures in_time { result ≡ Status.SourceFault → TakesAtMost 1048576 (S.left source.old) (S.left source.new) }
    ensures grows { OnlyGrows (U.held out.old) (U.held out.new) }
    ensures ends { ChecksSo (stage (map string_bytes words.now) (S.left source.old) (S.faults source.old) (S.faults source.new)
        (U.held out.old) (U.held out.new) (U.faults out.old) (U.faults out.new)) result }
{
    match accept(alloc, Purpose::Check, words, source) {
        Ok(study) => write_accepted(&study, out),
        Err(status) => refuse(status, out),
    }
}

/// Writes the line of an accepted study.
fn write_accepted<U: Sink>(study: &Study, out: &mut U) -> Status
    ensures grows { OnlyGrows (U.held out.old) (U.held out.new) }
    ensures tells { TellsStudy study.now (U.held out.old) (U.held out.new) (U.faults out.old) (U.faults out.new) result }
{
    let mut writer = Writer::new(out);
    put_accepted(study, &mut writer);
    match writer.finish() {
        Ok(()) => Status::Finished,
        Err(Failed) => Status::SinkFault(Which::Out),
    }
}

fn put_accepted<U: Sink>(study: &Study, writer: &mut Writer<'_, U>)
    ensures { Puts U.held U.faults writer.old writer.new (accepted_line study.now) }
{
    writer.put(b"study accepted: variables ");
    put_number(study.variables.labels.items().len(), writer);
    writer.put(b", responses ");
    put_number(study.responses.labels.items().len(), writer);
    writer.put(b", evaluations at most ");
    put_number(study.limit as usize, writer);
    writer.put(b"\n");
}
