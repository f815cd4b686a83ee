// What the bytes of a restart file are read as.
ghost use Rattle.std.specs.Prelude.{◌≡◌, ◌≤◌, ◌^◌, ◌-◌, ◌↔◌, length, IfOk, IsTrue};
ghost use Rattle.dk_record.specs.Payloads.{IsShape};
ghost use Rattle.dk_record.specs.Readings.{IsCount};
ghost use Rattle.dk_record.specs.Files.{IsUnborn};
ghost use Rattle.dk_journal.specs.Walks.{PutsAll, begins_closed};
ghost use Rattle.dk_journal.specs.Damages.{Reads};

use crate::records::{count_records, put_records};
use dk_book::Book;
use dk_num::Dec;
use dk_record::read_header;
use dk_types::{Shape, Text};
use std::alloc::{AllocError, Global};

#[cfg(test)]
pub(crate) mod tests;

/// What the bytes of a file that isn't unborn are read as.
#[derive(Drop)]
pub(crate) enum Reading {
    /// Its entries, in a book: how many there are, and where their end gate stands.
    Entries { book: Book, count: u64, end: usize },
    /// No header stands behind the first byte.
    NotARestart,
    /// The header has these labels, which aren't those wanted.
    OtherShape { stored: Shape },
    /// At this place, where a gate is due, the file ends, or behind an open gate stands no record of an entry that may
    /// come next.
    Damaged { offset: usize },
}

/// Whether two lists of labels are one.
fn are_same_labels(labels: &[Text], others: &[Text]) -> bool
    ensures { IsTrue result ↔ labels.now ≡ others.now }
{
    match (labels.split_first(), others.split_first()) {
        (None, None) => true,
        (Some((first, rest)), Some((second, behind))) => {
            first.as_str() == second.as_str() && are_same_labels(rest, behind)
        }
        _ => false,
    }
}

/// Whether two shapes have the same labels.
fn is_same_shape(shape: &Shape, other: &Shape) -> bool
    ensures { IsTrue result ↔ shape.now ≡ other.now }
{
    are_same_labels(shape.variables.items(), other.variables.items())
        && are_same_labels(shape.responses.items(), other.responses.items())
}

/// Whether a closed gate stands at the front.
fn is_closed(bytes: &[u8]) -> bool
    ensures { result ≡ begins_closed bytes.now }
{
    match bytes {
        [gate, ..] => *gate == 0,
        [] => false,
    }
}

/// A book of the records at the front, how many there are, and what follows them.
#[derive(Drop)]
struct Walk<'a> {
    book: Book,
    count: u64,
    rest: &'a [u8],
}

/// Reads the records at the front into a book, up to the first place where none stands that may come next, with room for
/// so many cards more. The two slices have a place for each variable and each response.
fn fill_book<'a>(
    alloc: Global,
    bytes: &'a [u8],
    point: &mut [Dec],
    values: &mut [Dec],
    cards: usize,
) -> Result<Walk<'a>, AllocError>
    requires has_few_bytes { length bytes.now ≤ 2 ^ 28 }
    requires has_variables { IsCount (length point.old) }
    requires has_responses { IsCount (length values.old) }
    requires has_few_cards { cards ≤ 100000 }
    ensures puts { IfOk result (λ walk. PutsAll (length point.old) (length values.old) cards bytes.now walk.rest.now walk.count walk.book) }
    ensures has_widths { IfOk result (λ walk. (walk.book.variables ≡ length point.old) × (walk.book.responses ≡ length values.old)) }
{
    let counts = count_records(bytes, point, values);
    let mut book = Book::reserve(
        alloc,
        point.len(),
        values.len(),
        counts.records + cards,
        counts.values + cards,
    )?;
    let (count, rest) = put_records(bytes, &mut book, point, values);
    Ok(Walk { book, count, rest })
}

/// Reads the records of a file of this shape, up to the first place where none stands that may come next.
fn read_records<'a>(
    alloc: Global,
    bytes: &'a [u8],
    shape: &Shape,
    cards: usize,
) -> Result<Walk<'a>, AllocError>
    requires has_few_bytes { length bytes.now ≤ 2 ^ 28 }
    requires is_shape { IsShape shape.now }
    requires has_few_cards { cards ≤ 100000 }
    ensures puts { IfOk result (λ walk. PutsAll (length shape.now.variables) (length shape.now.responses) cards bytes.now walk.rest.now walk.count walk.book) }
    ensures has_widths { IfOk result (λ walk. (walk.book.variables ≡ length shape.now.variables) × (walk.book.responses ≡ length shape.now.responses)) }
{
    let mut point = vec![in alloc; Dec::whole(0); shape.variables.items().len()]?;
    let mut values = vec![in alloc; Dec::whole(0); shape.responses.items().len()]?;
    fill_book(alloc, bytes, &mut point, &mut values, cards)
}

/// Reads the bytes of a file that isn't unborn as those of one of this shape, once to count its records and once to put
/// them into a book with room for so many cards more, each of them with values.
pub(crate) fn read_file(
    alloc: Global,
    bytes: &[u8],
    shape: &Shape,
    cards: usize,
) -> Result<Reading, AllocError>
    requires is_born { ¬ IsUnborn bytes.now }
    requires has_few_bytes { length bytes.now ≤ 2 ^ 28 }
    requires is_shape { IsShape shape.now }
    requires has_few_cards { cards ≤ 100000 }
    ensures reads { IfOk result (λ reading. Reads shape.now bytes.now cards reading) }
{
    let Some((_gate, behind)) = bytes.split_first() else {
        return Ok(Reading::NotARestart);
    };
    let Some(stored) = read_header(alloc, behind)? else {
        return Ok(Reading::NotARestart);
    };
    if !is_same_shape(&stored.shape, shape) {
        return Ok(Reading::OtherShape {
            stored: stored.shape,
        });
    }
    let records = &behind[stored.length..];
    let Walk { book, count, rest } = read_records(alloc, records, shape, cards)?;
    let place = bytes.len() - rest.len();
    if is_closed(rest) {
        Ok(Reading::Entries {
            book,
            count,
            end: place,
        })
    } else {
        Ok(Reading::Damaged { offset: place })
    }
}
