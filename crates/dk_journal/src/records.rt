// Records of a file, one behind the other.
ghost use Rattle.std.specs.Prelude.{◌≡◌, ℕ, ◌+◌, ◌<◌, ◌≤◌, ◌↔◌, List, [], length, MatchOption, slice_get, option_map, Some, IsTrue, IfSome};
ghost use Rattle.dk_num.specs.Decimal.{Decimal};
ghost use Rattle.dk_types.specs.declared.entry.Entry.{Entry};
ghost use Rattle.dk_types.specs.Entries.{kept, values_of, next_attempt};
ghost use Rattle.dk_record.specs.Readings.{said_by};
ghost use Rattle.dk_book.specs.Books.{IsDue, room_taken};
ghost use Rattle.dk_book.specs.Told.{StandsFor};
ghost use Rattle.dk_journal.specs.Walks.{IsRecord, HasNoRecord, AreCounted, HasRoom, PutsEntry, PutsRecord, PutsAll, entry_by, is_failed};

use dk_book::{Book, CardId};
use dk_num::Dec;
use dk_record::{Decoded, read_record};
use dk_types::Outcome;

/// How many records stand one behind the other, and how many of them have values.
#[derive(Clone, Copy)]
pub(crate) struct Counts {
    pub records: usize,
    pub values: usize,
}

/// What an attempt gave that left these values, if it gave any.
fn outcome_by(gave: bool, values: &[Dec]) -> Outcome<'_>
    ensures { kept result ≡ said_by gave values.now }
{
    if gave {
        Outcome::Values(values)
    } else {
        Outcome::Failed
    }
}

/// The record behind an open gate at the front, and what follows it. None exactly where no such record stands there.
fn next_record<'a>(
    bytes: &'a [u8],
    point: &mut [Dec],
    values: &mut [Dec],
) -> Option<(Decoded, &'a [u8])>
    ensures { MatchOption result
        (HasNoRecord (length point.old) (length values.old) bytes.now)
        (λ found. IsRecord (length point.old) (length values.old) bytes.now (entry_by point.new values.new found.0) found.1.now) }
{
    let (gate, behind) = bytes.split_first()?;
    if *gate == 0 {
        return None;
    }
    let record = read_record(behind, point, values)?;
    Some((record, &behind[record.length..]))
}

/// How many cards get values by an attempt.
fn count_of(gave: bool) -> usize
    ensures { (values : List Decimal) → result ≡ room_taken (said_by gave values) }
{
    if gave { 1 } else { 0 }
}

/// How many records stand one behind the other at the front, up to the first place where none does.
pub(crate) fn count_records(bytes: &[u8], point: &mut [Dec], values: &mut [Dec]) -> Counts
    ensures { AreCounted (length point.old) (length values.old) bytes.now result.records result.values }
{
    let mut counts = Counts {
        records: 0,
        values: 0,
    };
    let mut rest = bytes;
    while let Some((record, behind)) = next_record(rest, point, values) {
        counts.records += 1;
        counts.values += count_of(record.values);
        rest = behind;
    }
    counts
}

/// Whether an attempt that was told of failed.
fn is_failure(outcome: Option<Outcome<'_>>) -> bool
    ensures { result ≡ is_failed (option_map kept outcome.entry) }
{
    match outcome {
        None => false,
        Some(Outcome::Failed) => true,
        Some(Outcome::Values(_)) => false,
    }
}

/// Whether an attempt, counted from 1, is the next one of a card: the card tells of the one before it that it failed,
/// and nothing of this one.
fn is_due(book: &Book, card: CardId, attempt: u32) -> bool
    requires is_there { card.index < length book.now.cards }
    requires is_numbered { 1 ≤ attempt }
    ensures is_next_of_card { IsTrue result ↔ IfSome (slice_get book.now.cards card.index) (λ c. IsDue c attempt) }
{
    book.said(card, attempt).is_none() && (attempt == 1 || is_failure(book.said(card, attempt - 1)))
}

/// Puts an attempt into the book where it is the next one of its point, and answers whether it is.
fn put_entry(book: &mut Book, point: &[Dec], attempt: u32, outcome: Outcome<'_>) -> bool
    requires has_width { length point.now ≡ book.old.variables }
    requires has_width_of_values { IfSome (values_of (kept outcome)) (λ values. length values ≡ book.old.responses) }
    requires is_numbered { 1 ≤ attempt }
    requires has_spare { 1 ≤ book.old.spare }
    requires has_room { room_taken (kept outcome) ≤ book.old.room }
    ensures puts { (entries : List Entry) → StandsFor book.old entries → PutsEntry entries (record { point = point.now; attempt = attempt; said = kept outcome.entry }) book.old book.new result }
    ensures keeps_width_of_points { book.new.variables ≡ book.old.variables }
    ensures keeps_width_of_values { book.new.responses ≡ book.old.responses }
{
    let card = book.place(point);
    if !is_due(book, card, attempt) {
        return false;
    }
    book.add(card, attempt, outcome);
    true
}

/// Puts the record at the front into the book, and answers what follows it. None exactly where no record of an entry
/// stands there that may come next.
fn put_next<'a>(
    bytes: &'a [u8],
    book: &mut Book,
    point: &mut [Dec],
    values: &mut [Dec],
) -> Option<&'a [u8]>
    requires has_width_of_points { length point.old ≡ book.old.variables }
    requires has_width_of_values { length values.old ≡ book.old.responses }
    requires has_room { HasRoom book.old.variables book.old.responses 0 bytes.now book.old }
    ensures puts { (entries : List Entry) (cards : ℕ) → StandsFor book.old entries → HasRoom book.old.variables book.old.responses cards bytes.now book.old →
        PutsRecord book.old.variables book.old.responses cards entries bytes.now book.new (option_map (λ rest. rest.now) result) }
    ensures keeps_width_of_points { book.new.variables ≡ book.old.variables }
    ensures keeps_width_of_values { book.new.responses ≡ book.old.responses }
{
    let Some((record, behind)) = next_record(bytes, point, values) else {
        return None;
    };
    let outcome = outcome_by(record.values, values);
    if !put_entry(book, point, record.attempt, outcome) {
        return None;
    }
    Some(behind)
}

/// Puts the records at the front into a book with no cards, one after the other, up to the first place where none stands
/// that may come next. Answers how many were put, and what stands from that place on.
pub(crate) fn put_records<'a>(
    bytes: &'a [u8],
    book: &mut Book,
    point: &mut [Dec],
    values: &mut [Dec],
) -> (u64, &'a [u8])
    requires has_width_of_points { length point.old ≡ book.old.variables }
    requires has_width_of_values { length values.old ≡ book.old.responses }
    requires is_empty { book.old.cards ≡ [] }
    requires has_room { HasRoom book.old.variables book.old.responses 0 bytes.now book.old }
    ensures puts { (cards : ℕ) → HasRoom book.old.variables book.old.responses cards bytes.now book.old → PutsAll book.old.variables book.old.responses cards bytes.now result.1.now result.0 book.new }
    ensures keeps_width_of_points { book.new.variables ≡ book.old.variables }
    ensures keeps_width_of_values { book.new.responses ≡ book.old.responses }
{
    let mut count = 0;
    let mut rest = bytes;
    while let Some(behind) = put_next(rest, book, point, values) {
        count += 1;
        rest = behind;
    }
    (count, rest)
}
