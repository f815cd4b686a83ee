//! Refusals as text.
use crate::{ReadRefusal, StudyFault, StudyKind};
use dk_grammar::{Block, GrammarFault};
use dk_lex::{LexFault, Span};
use std::test::Fail;

const SPAN: Span = Span { from: 10, to: 14 };

const OF_BYTES: [(LexFault, &str); 3] = [
    (
        LexFault::OpenString(SPAN),
        "study refused: OpenString at bytes 10..14",
    ),
    (
        LexFault::BadByte(SPAN),
        "study refused: BadByte at bytes 10..14",
    ),
    (LexFault::NoMemory, "out of memory"),
];

const OF_TOKENS: [(GrammarFault, &str); 6] = [
    (
        GrammarFault::UnknownKeyword(SPAN),
        "study refused: UnknownKeyword at bytes 10..14",
    ),
    (
        GrammarFault::Unsupported(SPAN),
        "study refused: Unsupported at bytes 10..14",
    ),
    (
        GrammarFault::Repeated(SPAN),
        "study refused: Repeated at bytes 10..14",
    ),
    (
        GrammarFault::Misplaced(SPAN),
        "study refused: Misplaced at bytes 10..14",
    ),
    (
        GrammarFault::MissingBlock(Block::Method, SPAN),
        "study refused: MissingBlock at bytes 10..14 (Method)",
    ),
    (GrammarFault::NoMemory, "out of memory"),
];

/// A refusal says its kind and its bytes, in the same words whatever finds it.
#[test]
fn refusals_have_texts(rt: HostRuntime) -> Result<(), Fail> {
    let alloc = rt.alloc();
    let kind = StudyKind::OffGrid;
    let fault = StudyFault { kind, span: SPAN };
    let refusal = ReadRefusal::Study(fault);
    assert_eq!(rt; format!(in alloc; "{kind}")?.as_str(), "OffGrid");
    assert_eq!(rt;
        format!(in alloc; "{fault}")?.as_str(),
        "study refused: OffGrid at bytes 10..14"
    );
    assert_eq!(rt;
        format!(in alloc; "{refusal}")?.as_str(),
        "study refused: OffGrid at bytes 10..14"
    );
    assert_eq!(rt;
        format!(in alloc; "{}", ReadRefusal::NoMemory)?.as_str(),
        "out of memory"
    );
    for (fault, text) in OF_BYTES {
        let told = format!(in alloc; "{fault}")?;
        assert_eq!(rt; told.as_bytes(), text.as_bytes());
    }
    for (fault, text) in OF_TOKENS {
        let told = format!(in alloc; "{fault}")?;
        assert_eq!(rt; told.as_bytes(), text.as_bytes());
    }
    Ok(())
}
