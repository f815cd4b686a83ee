//! Texts with their trees or first faults, the places counted by hand.
mod studies;
mod words;

use crate::{GrammarFault, Tree, tree};
use dk_lex::{Span, Tokens, lex};
use std::alloc::{AllocError, Global};
use std::process::Abort;
use std::test::Fail;

fn told_fault(alloc: Global, fault: GrammarFault) -> Result<String, AllocError> {
    match fault {
        GrammarFault::UnknownKeyword(Span { from, to }) => format!(in alloc;
            "UnknownKeyword {from}..{to}"
        ),
        GrammarFault::Unsupported(Span { from, to }) => format!(in alloc;
            "Unsupported {from}..{to}"
        ),
        GrammarFault::Repeated(Span { from, to }) => format!(in alloc; "Repeated {from}..{to}"),
        GrammarFault::Misplaced(Span { from, to }) => format!(in alloc; "Misplaced {from}..{to}"),
        GrammarFault::MissingBlock(block, Span { from, to }) => format!(in alloc;
            "MissingBlock {block:?} {from}..{to}"
        ),
        GrammarFault::NoMemory => String::from_str(alloc, "NoMemory"),
    }
}

fn told_values(alloc: Global, line: &mut String, values: &Tokens) -> Result<(), AllocError> {
    for value in values.items() {
        let Span { from, to } = value.span;
        line.push_str(&format!(in alloc; " {from}..{to}")?)?;
    }
    line.push_str(";")
}

/// The blocks of a tree, and its keywords with their values.
fn told_tree(alloc: Global, tree: &Tree) -> Result<String, AllocError> {
    let mut line = String::new(alloc);
    for opening in tree.blocks.items() {
        let Span { from, to } = opening.name;
        line.push_str(&format!(in alloc; "{:?} {from}..{to};", opening.block)?)?;
    }
    for item in tree.items.items() {
        let Span { from, to } = item.keyword;
        line.push_str(&format!(in alloc; "{:?} {:?} {from}..{to}:", item.block, item.entry.name)?)?;
        told_values(alloc, &mut line, &item.values)?;
    }
    Ok(line)
}

/// What a text gives.
pub fn told(alloc: Global, text: &[u8]) -> Result<String, AllocError> {
    if text.len() > 1_048_576 {
        return String::from_str(alloc, "too long");
    }
    match lex(alloc, text) {
        Ok(tokens) => match tree(alloc, text, &tokens) {
            Ok(tree) => told_tree(alloc, &tree),
            Err(fault) => told_fault(alloc, fault),
        },
        Err(_) => String::from_str(alloc, "no tokens"),
    }
}

/// Each text gives what stands beside it.
fn gives(rt: &impl Abort, alloc: Global, cases: &[(&[u8], &str)]) -> Result<(), Fail> {
    for (text, wanted) in cases {
        assert_eq!(rt; told(alloc, text)?.as_str(), *wanted);
    }
    Ok(())
}

/// A word of no table, at the first, a middle and the last place, and the first of several faults.
#[test]
fn unknown_words_are_told_where_they_stand(rt: HostRuntime) -> Result<(), Fail> {
    gives(
        &rt,
        rt.alloc(),
        &[
            (b"frobnicate method", "UnknownKeyword 0..10"),
            (b"method frobnicate output", "UnknownKeyword 7..17"),
            (b"method frobnicate", "UnknownKeyword 7..17"),
            (b"method num_steps frobnicate", "UnknownKeyword 17..27"),
            (b"method frobnicate fork 5 method", "UnknownKeyword 7..17"),
            (b"fork frobnicate", "Misplaced 0..4"),
            (b"method method frobnicate", "Repeated 7..13"),
            (b"nested frobnicate", "Unsupported 0..6"),
            (b"method num_step 1", "UnknownKeyword 7..15"),
            (b"method num_steps1", "UnknownKeyword 7..17"),
            (b"method silent", "UnknownKeyword 7..13"),
        ],
    )
}

/// A word that is refused, in any place and any case.
#[test]
fn refused_words_are_told_where_they_stand(rt: HostRuntime) -> Result<(), Fail> {
    gives(
        &rt,
        rt.alloc(),
        &[
            (b"system method", "Unsupported 0..6"),
            (b"method grid output", "Unsupported 7..11"),
            (b"method nested", "Unsupported 7..13"),
            (b"interface direct continuation", "Unsupported 17..29"),
            (b"INTERFACE Direct CONTINUATION", "Unsupported 17..29"),
            (
                b"interface analysis_drivers continuation",
                "Unsupported 27..39",
            ),
        ],
    )
}

/// Keywords outside their blocks, and values that no keyword takes.
#[test]
fn what_is_misplaced_is_told_where_it_stands(rt: HostRuntime) -> Result<(), Fail> {
    gives(
        &rt,
        rt.alloc(),
        &[
            (b"fork", "Misplaced 0..4"),
            (b"5 method", "Misplaced 0..1"),
            (b"'a'", "Misplaced 0..3"),
            (b"method fork output", "Misplaced 7..11"),
            (b"method fork", "Misplaced 7..11"),
            (b"method 5", "Misplaced 7..8"),
            (b"variables num_steps 1", "Misplaced 10..19"),
            (b"method descriptors 'a'", "Misplaced 7..18"),
            (b"method num_steps 1 variables 2", "Misplaced 29..30"),
            (b"method num_steps 'a'", "Misplaced 17..20"),
            (b"method step_vector 1 'a' 2", "Misplaced 21..24"),
            (b"variables descriptors 5", "Misplaced 22..23"),
            (b"interface fork 1", "Misplaced 15..16"),
            (b"interface fork 'x'", "Misplaced 15..18"),
            (b"interface analysis_drivers 'a' 'b' 3", "Misplaced 35..36"),
            (b"method vector_parameter_study 1", "Misplaced 30..31"),
        ],
    )
}

/// Blocks and keywords of a block for the second time. Another block may have the same keyword.
#[test]
fn what_is_repeated_is_told_at_the_second_place(rt: HostRuntime) -> Result<(), Fail> {
    gives(
        &rt,
        rt.alloc(),
        &[
            (b"method\nmethod", "Repeated 7..13"),
            (b"method method output", "Repeated 7..13"),
            (b"Method variables mETHOD", "Repeated 17..23"),
            (b"method num_steps 1 num_steps 2 output", "Repeated 19..28"),
            (b"METHOD Num_Steps 1 nUM_sTEPS", "Repeated 19..28"),
            (
                b"variables descriptors 'a' responses descriptors 'b'",
                "MissingBlock Method 51..51",
            ),
            (b"method output method", "Repeated 14..20"),
            (b"method output output", "UnknownKeyword 14..20"),
            (b"method output silent output", "Repeated 21..27"),
        ],
    )
}

/// `output` takes the one word behind it, and may stand without it.
#[test]
fn output_takes_one_word(rt: HostRuntime) -> Result<(), Fail> {
    gives(
        &rt,
        rt.alloc(),
        &[
            (b"method output", "MissingBlock Variables 13..13"),
            (b"method output variables", "MissingBlock Interface 23..23"),
            (b"method output silent", "MissingBlock Variables 20..20"),
            (b"method OUTPUT Verbose", "MissingBlock Variables 21..21"),
            (b"method output fork", "UnknownKeyword 14..18"),
            (b"method output nested", "UnknownKeyword 14..20"),
            (b"method output loud", "UnknownKeyword 14..18"),
            (b"method output silent quiet", "UnknownKeyword 21..26"),
            (b"method output 5", "Misplaced 14..15"),
            (b"method output 'x'", "Misplaced 14..17"),
            (b"method output 5 silent", "Misplaced 14..15"),
            (b"method output silent 5", "Misplaced 21..22"),
        ],
    )
}

/// The first block that is missing is told at the text's end.
#[test]
fn missing_blocks_are_told_in_their_order(rt: HostRuntime) -> Result<(), Fail> {
    gives(
        &rt,
        rt.alloc(),
        &[
            (b"", "MissingBlock Method 0..0"),
            (b" # none\n", "MissingBlock Method 8..8"),
            (b"variables", "MissingBlock Method 9..9"),
            (b"interface responses", "MissingBlock Method 19..19"),
            (b"method", "MissingBlock Variables 6..6"),
            (b"environment method model", "MissingBlock Variables 24..24"),
            (b"method variables", "MissingBlock Interface 16..16"),
            (
                b"method variables interface",
                "MissingBlock Responses 26..26",
            ),
            (
                b"method variables interface # end",
                "MissingBlock Responses 32..32",
            ),
            (b"method frobnicate", "UnknownKeyword 7..17"),
        ],
    )
}

/// Trees of whole studies, with the words behind each keyword.
#[test]
fn studies_give_their_trees(rt: HostRuntime) -> Result<(), Fail> {
    gives(
        &rt,
        rt.alloc(),
        &[
            (
                b"responses interface variables method",
                "Responses 0..9;Interface 10..19;Variables 20..29;Method 30..36;",
            ),
            (studies::SHORT, studies::SHORT_TREE),
            (studies::VECTOR, studies::VECTOR_TREE),
            (studies::CONTINUED, "Unsupported 280..292"),
        ],
    )
}

/// Each keyword stands in its block, in small and in large letters.
#[test]
fn keywords_stand_in_their_blocks(rt: HostRuntime) -> Result<(), Fail> {
    let alloc = rt.alloc();
    for (block, keyword) in words::KEYWORDS {
        let mut text = String::from_str(alloc, block)?;
        text.push_str(" ")?;
        text.push_str(keyword)?;
        assert!(rt;
            told(alloc, text.as_bytes())?
                .as_str()
                .starts_with("MissingBlock"),
            "{keyword}"
        );
        text.make_ascii_uppercase();
        assert!(rt;
            told(alloc, text.as_bytes())?
                .as_str()
                .starts_with("MissingBlock"),
            "{keyword}"
        );
    }
    Ok(())
}

/// Each word that is refused is refused, wherever it stands.
#[test]
fn refused_words_are_refused(rt: HostRuntime) -> Result<(), Fail> {
    let alloc = rt.alloc();
    for word in words::REFUSED {
        assert!(rt;
            told(alloc, word.as_bytes())?
                .as_str()
                .starts_with("Unsupported 0.."),
            "{word}"
        );
    }
    Ok(())
}
