// The study of a text.
ghost use Rattle.std.specs.Prelude.{◌≡◌, ◌≤◌, length, IfOk};
ghost use Rattle.dk_types.specs.Sound.{IsSound};
ghost use Rattle.dk_reader.specs.Reading.{StudyRead, DocumentOf, lexical_refusal, grammar_refusal};
ghost use Rattle.dk_reader.specs.Reading as reading_spec;

use crate::document::Document;
use crate::fault::{ReadRefusal, StudyFault, StudyKind};
use crate::grow::document_of;
use dk_grammar::{GrammarFault, tree};
use dk_lex::{LexFault, Span, lex};
use dk_types::Study;
use std::alloc::Global;

fn refused(kind: StudyKind, span: Span) -> ReadRefusal
    ensures { result ≡ reading_spec.refused kind span }
{
    ReadRefusal::Study(StudyFault { kind, span })
}

/// A fault of the bytes as a refusal.
fn refused_bytes(fault: LexFault) -> ReadRefusal
    ensures { result ≡ lexical_refusal fault }
{
    match fault {
        LexFault::OpenString(span) => refused(StudyKind::OpenString, span),
        LexFault::BadByte(span) => refused(StudyKind::BadByte, span),
        LexFault::NoMemory => ReadRefusal::NoMemory,
    }
}

/// A fault of the tokens as a refusal.
fn refused_tokens(fault: GrammarFault) -> ReadRefusal
    ensures { result ≡ grammar_refusal fault }
{
    match fault {
        GrammarFault::UnknownKeyword(span) => refused(StudyKind::UnknownKeyword, span),
        GrammarFault::Unsupported(span) => refused(StudyKind::Unsupported, span),
        GrammarFault::Repeated(span) => refused(StudyKind::Repeated, span),
        GrammarFault::Misplaced(span) => refused(StudyKind::Misplaced, span),
        GrammarFault::MissingBlock(_, span) => refused(StudyKind::MissingBlock, span),
        GrammarFault::NoMemory => ReadRefusal::NoMemory,
    }
}

/// What a text says, keyword by keyword, or its first fault before the steps.
fn document_of_text(alloc: Global, text: &[u8]) -> Result<Document, ReadRefusal>
    requires { length text.now ≤ 1048576 }
    ensures { DocumentOf text.now result }
{
    let tokens = match lex(alloc, text) {
        Ok(tokens) => tokens,
        Err(fault) => return Err(refused_bytes(fault)),
    };
    let tree = match tree(alloc, text, &tokens) {
        Ok(tree) => tree,
        Err(fault) => return Err(refused_tokens(fault)),
    };
    let document = document_of(alloc, text, tree)?;
    Ok(document)
}

/// Reads a study's text, of at most 1,048,576 bytes.
///
/// The answer is the one study that the text says: each part is the written value or the default that the manual gives,
/// and the study is sound (`is_sound`). Else it is the text's first fault, with its kind and the bytes at which it
/// stands, and no study: all faults are sought before any part of it is built. `each_text_says` says that a text has
/// just one study or just one first fault. The text is read alone, and nothing is kept of one that is refused.
///
/// A refusal is
///
/// - `Study` with the first fault of the bytes: `OpenString` or `BadByte`;
/// - else `Study` with the first fault of the tokens from left to right: `UnknownKeyword`, `Unsupported`, `Repeated` or
///   `Misplaced`, and `MissingBlock` where no token has one;
/// - else `Study` with the first fault of the twelve steps in order, of any kind but these and `TooLong`, or one of
///   `Unsupported`, as a driver that isn't built in;
/// - `NoMemory` where memory ran out, which says nothing of the text.
///
/// The keywords are those of the Dakota Reference Manual, in this project's profile.
pub fn read_study(alloc: Global, text: &[u8]) -> Result<Study, ReadRefusal>
    requires { length text.now ≤ 1048576 }
    ensures says_study_or_fault { StudyRead text.now result }
    ensures is_sound { IfOk result IsSound }
{
    let document = document_of_text(alloc, text)?;
    document.study_of(alloc)
}
