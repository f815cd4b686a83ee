// The study that words and a source give.
ghost use Rattle.std.specs.Prelude.{◌≡◌, ◌≤◌, length, map, IfErr, IfOk, IsTrue, OnOk, string_bytes};
ghost use Rattle.dk_outside.specs.Sources.{IsDrained, TakesAtMost};
ghost use Rattle.dk_types.specs.Sound.{IsSound};
ghost use Rattle.dk_runner.specs.Accepted.{at_beginning};
ghost use Rattle.dk_runner.specs.Causes.{IsVerdict, IsReason};
ghost use Rattle.dk_runner.specs.Lines.{is_early, is_read};

use crate::{Purpose, Span, Status, StudyFault, StudyKind};
use dk_outside::Source;
use dk_outside::source::{TextFault, read_text};
use dk_reader::{ReadRefusal, read_study};
use dk_types::Study;
use dk_words::usage_for;
use std::alloc::Global;

/// The study that the words and the source give for a run or a check, or why they give none.
pub fn accept<S: Source>(
    alloc: Global,
    purpose: Purpose,
    words: &[String],
    source: &mut S,
) -> Result<Study, Status>
    ensures has_reason { IsReason purpose (map string_bytes words.now) (S.left source.old) (S.faults source.old) (S.faults source.new) result }
    ensures drains { OnOk result (IsDrained (S.left source.old) (S.left source.new)) }
    ensures drains_before { IfErr result (λ status. IsTrue (is_read status) → IsDrained (S.left source.old) (S.left source.new)) }
    ensures stays_within { IfErr result (λ status. status ≡ Status.SourceFault → TakesAtMost 1048576 (S.left source.old) (S.left source.new)) }
    ensures is_early { IfErr result (λ status. IsTrue (is_early status)) }
    ensures is_sound { IfOk result IsSound }
{
    if let Some(at) = usage_for(purpose, words) {
        return Err(Status::Usage { at });
    }
    match read_text(alloc, source) {
        Ok(text) => accept_text(alloc, &text),
        Err(TextFault::Failed) => Err(Status::SourceFault),
        Err(TextFault::TooLong) => Err(refused(StudyKind::TooLong)),
        Err(TextFault::NoMemory) => Err(Status::NoMemory),
    }
}

/// The study that a text gives, or why it gives none.
fn accept_text(alloc: Global, text: &[u8]) -> Result<Study, Status>
    requires { length text.now ≤ 1048576 }
    ensures has_verdict { IsVerdict text.now result }
    ensures is_early { IfErr result (λ status. IsTrue (is_early status)) }
    ensures is_sound { IfOk result IsSound }
{
    match read_study(alloc, text) {
        Ok(study) => Ok(study),
        Err(ReadRefusal::Study(fault)) => Err(Status::StudyRefused(fault)),
        Err(ReadRefusal::NoMemory) => Err(Status::NoMemory),
    }
}

/// A study's text is refused, with an empty span at its beginning.
fn refused(kind: StudyKind) -> Status
    ensures { result ≡ Status.StudyRefused (at_beginning kind) }
{
    Status::StudyRefused(StudyFault {
        kind,
        span: Span { from: 0, to: 0 },
    })
}
