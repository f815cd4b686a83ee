//! Books of few cards, whose points and values have one decimal each.
ghost use Rattle.std.specs.Prelude.{◌≡◌, ◌<◌, length, IfOk};

use crate::hash::hash_of;
use crate::{Answer, Book, CardId};
use dk_num::Dec;
use dk_types::{Decs, FailRule, Outcome};
use std::alloc::{AllocError, Global};
use std::test::Fail;

const FIRST: CardId = CardId { index: 0 };

/// Adds decimals to a line, each behind a blank.
fn put_decimals(decimals: &[Dec], line: &mut String) -> Result<(), AllocError> {
    for decimal in decimals {
        let mut text = [0u8; 64];
        let length = decimal.table_text(&mut text);
        line.push(' ')?;
        for byte in &text[..length] {
            line.push(char::from(*byte))?;
        }
    }
    Ok(())
}

/// Adds an answer to a line.
fn put_answer(alloc: Global, answer: Answer<'_>, line: &mut String) -> Result<(), AllocError> {
    match answer {
        Answer::Value(values) => {
            line.push_str("Value")?;
            put_decimals(values, line)?;
        }
        Answer::Dead { attempts } => line.push_str(&format!(in alloc; "Dead {attempts}")?)?,
        Answer::Next { attempt } => line.push_str(&format!(in alloc; "Next {attempt}")?)?,
    }
    line.push(';')
}

/// Adds what an attempt gave to a line.
fn put_said(said: Option<Outcome<'_>>, line: &mut String) -> Result<(), AllocError> {
    match said {
        Some(Outcome::Values(values)) => {
            line.push_str("Values")?;
            put_decimals(values, line)?;
        }
        Some(Outcome::Failed) => line.push_str("Failed")?,
        None => line.push_str("None")?,
    }
    line.push(';')
}

/// A book of one card, of which so many attempts failed, and the next one gave 6, if it was made.
fn book_of(alloc: Global, failures: u8, is_made: bool) -> Result<Book, AllocError>
    ensures { IfOk result (λ book. length book.cards ≡ 1) }
{
    let mut book = Book::reserve(alloc, 1, 1, 1, 1)?;
    book.place(&[Dec::whole(5)]);
    for made in 0..failures as u32 {
        book.add(FIRST, made + 1, Outcome::Failed);
    }
    if is_made {
        book.add(
            FIRST,
            failures as u32 + 1,
            Outcome::Values(&[Dec::whole(6)]),
        );
    }
    Ok(book)
}

/// What such a card comes to under each of three rules.
fn answers(alloc: Global, failures: u8, is_made: bool) -> Result<String, AllocError> {
    let book = book_of(alloc, failures, is_made)?;
    let abort = FailRule::Abort;
    let retry = FailRule::Retry(2);
    let recover = FailRule::Recover(Decs::of(alloc, &[Dec::whole(9)])?);
    let mut line = String::new(alloc);
    put_answer(alloc, book.answer(&abort, FIRST), &mut line)?;
    put_answer(alloc, book.answer(&retry, FIRST), &mut line)?;
    put_answer(alloc, book.answer(&recover, FIRST), &mut line)?;
    Ok(line)
}

/// What each of its first attempts gave, from 0 on.
fn sayings(alloc: Global, failures: u8, is_made: bool) -> Result<String, AllocError> {
    let book = book_of(alloc, failures, is_made)?;
    let mut line = String::new(alloc);
    for attempt in 0..4 {
        put_said(book.said(FIRST, attempt), &mut line)?;
    }
    Ok(line)
}

/// What cards come to under `Abort`, under a `Retry` of 2 and under a `Recover` of 9.
#[test]
fn cards_come_to_what_their_rule_allows(rt: HostRuntime) -> Result<(), Fail> {
    let cases = [
        (0, false, "Next 1;Next 1;Next 1;"),
        (0, true, "Value 6;Value 6;Value 6;"),
        (1, false, "Dead 1;Next 2;Value 9;"),
        (1, true, "Dead 1;Value 6;Value 9;"),
        (2, false, "Dead 1;Next 3;Value 9;"),
        (2, true, "Dead 1;Value 6;Value 9;"),
        (3, false, "Dead 1;Dead 3;Value 9;"),
        (3, true, "Dead 1;Dead 3;Value 9;"),
    ];
    for (failures, is_made, wanted) in cases {
        assert_eq!(rt; answers(rt.alloc(), failures, is_made)?.as_str(), wanted);
    }
    Ok(())
}

/// Attempts count from 1: those that failed, and the one behind them, if it was made.
#[test]
fn cards_tell_their_attempts(rt: HostRuntime) -> Result<(), Fail> {
    let cases = [
        (0, false, "None;None;None;None;"),
        (0, true, "None;Values 6;None;None;"),
        (1, true, "None;Failed;Values 6;None;"),
        (2, false, "None;Failed;Failed;None;"),
    ];
    for (failures, is_made, wanted) in cases {
        assert_eq!(rt; sayings(rt.alloc(), failures, is_made)?.as_str(), wanted);
    }
    Ok(())
}

/// A full book has the card of a point that is there, and a book that can take no values takes failures.
#[test]
fn a_full_book_keeps_its_cards(rt: HostRuntime) -> Result<(), Fail> {
    let point = [Dec::whole(5)];
    let mut book = Book::reserve(rt.alloc(), 1, 1, 1, 0)?;
    assert_eq!(rt; (book.spare(), book.room()), (1, 0));
    let card = book.place(&point);
    assert_eq!(rt; card, FIRST);
    book.add(card, 1, Outcome::Failed);
    assert_eq!(rt; book.place(&point), FIRST);
    assert_eq!(rt; (book.count(), book.spare(), book.room()), (1, 0, 0));
    assert!(rt; matches!(book.said(card, 1), Some(Outcome::Failed)));
    Ok(())
}

/// Points are one where their decimals are, whatever their texts.
#[test]
fn points_are_found_by_their_values(rt: HostRuntime) -> Result<(), Fail> {
    let mut book = Book::reserve(rt.alloc(), 1, 2, 3, 2)?;
    assert_eq!(rt;
        (
            book.variables(),
            book.responses(),
            book.spare(),
            book.room()
        ),
        (1, 2, 3, 2)
    );
    let short = [Dec::read(b"0.1")?];
    let long = [Dec::read(b"0.10")?];
    assert_eq!(rt; book.place(&[Dec::whole(1)]), FIRST);
    book.add(FIRST, 1, Outcome::Values(&[Dec::whole(6), Dec::whole(7)]));
    let card = book.place(&short);
    assert_eq!(rt; card, CardId { index: 1 });
    assert_eq!(rt; book.find(&long), Some(card));
    assert_eq!(rt; book.find(&[Dec::whole(2)]), None);
    assert_eq!(rt;
        (
            book.variables(),
            book.responses(),
            book.spare(),
            book.room()
        ),
        (1, 2, 1, 1)
    );
    Ok(())
}

/// Places a point of the book's width, where there is room for a card.
fn placed(book: &mut Book, point: &[Dec]) -> Option<CardId>
    requires { length point.now ≡ book.old.variables }
    ensures { book.new.variables ≡ book.old.variables }
{
    if book.spare() == 0 {
        return None;
    }
    Some(book.place(point))
}

/// A point whose second decimal takes back what the first one did, so that all such points have the hash 0: none where
/// the second would end with a zero.
fn of_one_hash(first: u16) -> Option<[Dec; 2]> {
    let first = Dec::whole(first as i128);
    let second = hash_of(&[first]);
    if second % 10 == 0 {
        return None;
    }
    Some([first, Dec::whole(second as i128)])
}

/// Points of one hash are still so many points: each has a card of its own, and one that wasn't placed has none.
#[test]
fn points_of_one_hash_are_told_apart(rt: HostRuntime) -> Result<(), Fail> {
    let mut book = Book::reserve(rt.alloc(), 2, 1, 1000, 0)?;
    let mut cards = 0;
    for first in 0..1000 {
        if let Some(point) = of_one_hash(first) {
            assert_eq!(rt; hash_of(&point), 0);
            assert_eq!(rt; book.find(&point), None);
            assert_eq!(rt; placed(&mut book, &point), Some(CardId { index: cards }));
            cards = cards.saturating_add(1);
        }
    }
    assert!(rt; cards > 800);
    let mut index = 0;
    for first in 0..1000 {
        if let Some(point) = of_one_hash(first) {
            assert_eq!(rt; book.find(&point), Some(CardId { index }));
            index = index.saturating_add(1);
        }
    }
    Ok(())
}

/// A million points are placed, and each is found again at its place.
#[test]
fn a_million_points_are_found(rt: HostRuntime) -> Result<(), Fail> {
    let mut book = Book::reserve(rt.alloc(), 1, 1, 1_000_000, 0)?;
    for index in 0..1_000_000 {
        let point = [Dec::whole(index as i128 + 1)];
        assert_eq!(rt; placed(&mut book, &point), Some(CardId { index }));
    }
    for index in 0..1_000_000 {
        assert_eq!(rt;
            book.find(&[Dec::whole(index as i128 + 1)]),
            Some(CardId { index })
        );
    }
    assert_eq!(rt; book.find(&[Dec::whole(1_000_001)]), None);
    Ok(())
}
