// The book of cards.
ghost use Rattle.std.specs.Prelude.{◌≡◌, ℕ, ◌+◌, ◌*◌, ◌^◌, ◌<◌, ◌≤◌, List, [], ◌∷◌, ◌++◌, All, length, slice_get, option_map, IfOk, IfSome, IsTrue, Some, None};
ghost use Rattle.dk_types.specs.declared.entry.Entry.{Entry};
ghost use Rattle.dk_types.specs.Entries.{kept, values_of};
ghost use Rattle.dk_num.specs.Decimal.{Decimal, IsCanonical};
ghost use Rattle.dk_types.specs.Answers.{retries as allowed_retries, given_up as answer_given_up, Value, Next};
ghost use Rattle.dk_types.specs.Sound.{IsSoundRule};
ghost use Rattle.dk_types.specs.Best.{same_point};
ghost use Rattle.dk_types.specs.Cards.{place_of, SumUp};
ghost use Rattle.dk_book.specs.Hashes as hashes;
ghost use Rattle.dk_book.specs.Books.{IsBook, IsDue, with_card, with_attempt, room_taken};
ghost use Rattle.dk_book.specs.Told.{told, StandsFor, said_at, answer_at, said_there, answer_there, entry_of};

use crate::hash::hash_of;
use crate::index::Index;
use dk_num::Dec;
use dk_pool::{Pool, RowId};
use dk_types::{FailRule, Outcome};
use std::alloc::{AllocError, Global};
use std::marker::Model;

/// Names a card by its place, counted from 0.
#[derive(Clone, Copy, Debug, PartialEq, Eq)]
pub struct CardId {
    /// How many cards were placed before it.
    pub index: u32,
}

/// What the attempts of a point come to under a rule (`failure_capture`).
#[derive(Clone, Copy)]
pub enum Answer<'a> {
    /// The point has these values, one a response: those that an attempt gave, or those that stand in their place.
    Value(&'a [Dec]),
    /// The point has no values, after so many attempts.
    Dead { attempts: u32 },
    /// This attempt, counted from 1, is to be made next.
    Next { attempt: u32 },
}

/// How a card's attempts went.
#[derive(Clone, Copy)]
struct Mark {
    /// How many failed.
    failures: u32,
    /// Where the values of the attempt behind these stand, if it was made.
    values: Option<RowId>,
}

/// The evaluation cache: a card for each point, which tells how many of its attempts failed and the values of the one
/// behind them, if it was made. A card may tell of no attempt.
///
/// Contracts see the cards in the order of their placing, which have distinct points; how many decimals a point and
/// the values of an attempt have; for how many more points there is room; and how many more cards can get values. Only
/// `reserve` takes memory. A card is found by a hash of its point.
#[derive(Drop)]
pub struct Book {
    points: Pool,
    values: Pool,
    marks: Vec<Mark>,
    index: Index,
}

impl Model for Book {
    ghost use Rattle.dk_book.specs.Books.{BookState};
    ghost use Rattle.std.specs.Prelude.{nat_eq};
    ghost use Rattle.indexmap.specs.IndexMap.{get, spare as left};
    ghost use Rattle.dk_book.specs.Kept.{book_by, IsStored};

    ghost Value = { BookState };

    ghost view = { λ b. book_by b.points b.values b.marks.items };

    ghost invariant = { λ b. IsStored b.points b.values b.marks.items (get nat_eq b.index.last) b.index.before.items (left b.index.last) };
}

impl Book {
    /// A book without cards, for points of so many variables and values of so many responses, with room for so many
    /// cards, so many of them with values.
    ///
    /// There are fewer than 2^32 cards and of those with values, and at most 2^25 decimals of points and of values.
    pub fn reserve(
        alloc: Global,
        variables: usize,
        responses: usize,
        cards: usize,
        values: usize,
    ) -> Result<Book, AllocError>
        requires has_few_cards { cards < 2 ^ 32 }
        requires has_few_values { values < 2 ^ 32 }
        requires fits_points { cards * variables ≤ 2 ^ 25 }
        requires fits_values { values * responses ≤ 2 ^ 25 }
        ensures begins_empty { IfOk result (λ b. b ≡ record { cards = []; variables = variables; responses = responses; spare = cards; room = values }) }
    {
        Ok(Book {
            points: Pool::reserve(alloc, cards, variables)?,
            values: Pool::reserve(alloc, values, responses)?,
            marks: vec![in alloc; Mark {
                failures: 0,
                values: None
            }; cards]?,
            index: Index::reserve(alloc, cards)?,
        })
    }

    /// How many decimals a point has.
    pub fn variables(&self) -> usize
        ensures gives_width_of_points { result ≡ self.now.variables }
    {
        self.points.width()
    }

    /// How many decimals the values of an attempt have.
    pub fn responses(&self) -> usize
        ensures gives_width_of_values { result ≡ self.now.responses }
    {
        self.values.width()
    }

    /// How many cards there are.
    pub fn count(&self) -> usize
        ensures gives_count { result ≡ length self.now.cards }
    {
        self.points.count()
    }

    /// How many more points can get a card.
    pub fn spare(&self) -> usize
        ensures gives_spare { result ≡ self.now.spare }
        ensures is_book { IsBook self.now }
    {
        self.points.spare()
    }

    /// How many more cards can get values.
    pub fn room(&self) -> usize
        ensures gives_room { result ≡ self.now.room }
    {
        self.values.spare()
    }

    /// The card of a point; none exactly where no card has it.
    pub fn find(&self, point: &[Dec]) -> Option<CardId>
        ensures finds_place { option_map (λ card. card.index) result ≡ place_of self.now.cards point.now }
        ensures finds_same_point { IfSome result (λ card. option_map (λ c. c.point) (slice_get self.now.cards card.index) ≡ Some point.now) }
    {
        self.search(hash_of(point), point)
    }

    /// The card of a point with this hash, looked for among the cards of the hash, the last first.
    fn search(&self, hash: u64, point: &[Dec]) -> Option<CardId>
        requires is_hash { hash ≡ hashes.hash_of point.now }
        requires canonical { All IsCanonical point.now }
        ensures place { option_map (λ card. card.index) result ≡ place_of self.now.cards point.now }
        ensures same_point { IfSome result (λ card. option_map (λ c. c.point) (slice_get self.now.cards card.index) ≡ Some point.now) }
    {
        let mut next = self.index.last_with(hash);
        while let Some(index) = next {
            let other = self.points.row(RowId { index });
            if is_same_point(other, point) {
                return Some(CardId { index });
            }
            next = self.index.before(index);
        }
        None
    }

    /// The card of a point: the one that is there, or a new one behind the others, which tells of no attempt.
    ///
    /// The point has one decimal a variable of the book, and it has a card or there is room for one. All other cards
    /// are as they were. A new card takes room for one card, and no card takes room for values.
    pub fn place(&mut self, point: &[Dec]) -> CardId
        requires has_width { length point.now ≡ self.old.variables }
        requires has_room { place_of self.old.cards point.now ≡ None → 1 ≤ self.old.spare }
        ensures places_card { self.new.cards ≡ with_card self.old.cards point.now }
        ensures names_card { place_of self.new.cards point.now ≡ Some result.index }
        ensures names_same_point { option_map (λ c. c.point) (slice_get self.new.cards result.index) ≡ Some point.now }
        ensures takes_room { length self.new.cards + self.new.spare ≡ length self.old.cards + self.old.spare }
        ensures keeps_room { self.new.room ≡ self.old.room }
        ensures keeps_width_of_points { self.new.variables ≡ self.old.variables }
        ensures keeps_width_of_values { self.new.responses ≡ self.old.responses }
        ensures is_book { IsBook self.new }
        ensures stands_for_entries { (entries : List Entry) → StandsFor self.old entries → StandsFor self.new entries }
    {
        let hash = hash_of(point);
        match self.search(hash, point) {
            Some(card) => card,
            None => {
                let row = self.points.put_row(point);
                self.index.add(row.index, hash);
                CardId { index: row.index }
            }
        }
    }

    /// What an attempt gave, by the card of its point; none exactly where the card doesn't tell of this attempt.
    pub fn said(&self, card: CardId, attempt: u32) -> Option<Outcome<'_>>
        requires is_there { card.index < length self.now.cards }
        ensures tells_of_card { option_map kept result ≡ said_at self.now card.index attempt }
        ensures tells_of_entries { (entries : List Entry) → StandsFor self.now entries → option_map kept result ≡ said_there self.now entries card.index attempt }
    {
        let mark = self.marks[card.index as usize];
        if attempt == 0 {
            return None;
        }
        if attempt <= mark.failures {
            return Some(Outcome::Failed);
        }
        if attempt - 1 > mark.failures {
            return None;
        }
        match mark.values {
            Some(row) => Some(Outcome::Values(self.values.row(row))),
            None => None,
        }
    }

    /// What the attempts of a card come to under a rule, of which each is looked at in turn: the first that gave values
    /// has them for the point. One that failed is passed over, unless it is the last one that the rule allows: then the
    /// point is dead, or the rule's own values stand in its place. The first that wasn't made is to be made next.
    ///
    /// The number of a `Retry` is at most 1,000.
    pub fn answer<'a>(&'a self, rule: &'a FailRule, card: CardId) -> Answer<'a>
        requires is_there { card.index < length self.now.cards }
        requires retries_few { allowed_retries rule.now ≤ 1000 }
        ensures answers_card { Some (told result) ≡ answer_at rule.now self.now card.index }
        ensures answers_entries { (entries : List Entry) → StandsFor self.now entries → Some (told result) ≡ answer_there rule.now self.now entries card.index }
        ensures has_width { (values : List Decimal) → told result ≡ Value values → IsSoundRule self.now.responses rule.now → length values ≡ self.now.responses }
        ensures asks_for_due { (attempt : ℕ) → told result ≡ Next attempt → IfSome (slice_get self.now.cards card.index) (λ c. IsDue c attempt) }
    {
        let mark = self.marks[card.index as usize];
        if mark.failures > retries(rule) {
            return given_up(rule, retries(rule) + 1);
        }
        match mark.values {
            Some(row) => Answer::Value(self.values.row(row)),
            None => Answer::Next {
                attempt: mark.failures + 1,
            },
        }
    }

    /// Adds what the next attempt of a card gave.
    ///
    /// The card has no values, the attempt is the one behind its failures, values are one a response of the book, and
    /// for values there is room. All other cards are as they were. Values take room for the values of one card.
    pub fn add(&mut self, card: CardId, attempt: u32, outcome: Outcome<'_>)
        requires is_there { card.index < length self.old.cards }
        requires is_due { IfSome (slice_get self.old.cards card.index) (λ c. IsDue c attempt) }
        requires has_width { IfSome (values_of (kept outcome)) (λ values. length values ≡ self.old.responses) }
        requires has_room { room_taken (kept outcome) ≤ self.old.room }
        ensures adds_attempt { self.new.cards ≡ with_attempt self.old.cards card.index (kept outcome.entry) }
        ensures takes_room { self.new.room + room_taken (kept outcome.entry) ≡ self.old.room }
        ensures keeps_spare { self.new.spare ≡ self.old.spare }
        ensures keeps_width_of_points { self.new.variables ≡ self.old.variables }
        ensures keeps_width_of_values { self.new.responses ≡ self.old.responses }
        ensures is_book { IsBook self.new }
        ensures stands_for_entries { (entries : List Entry) → StandsFor self.old entries →
            IfSome (slice_get self.old.cards card.index) (λ c. StandsFor self.new (entries ++ entry_of c attempt (kept outcome.entry) ∷ [])) }
    {
        let index = card.index as usize;
        match outcome {
            Outcome::Values(values) => self.marks[index].values = Some(self.values.put_row(values)),
            Outcome::Failed => self.marks[index].failures = attempt,
        }
    }
}

/// Whether two points are one.
fn is_same_point(point: &[Dec], other: &[Dec]) -> bool
    ensures value { result ≡ same_point point.now other.now }
    ensures pair { IsTrue result → point.now ≡ other.now }
{
    match (point.split_first(), other.split_first()) {
        (None, None) => true,
        (Some((first, rest)), Some((second, others))) => {
            *first == *second && is_same_point(rest, others)
        }
        _ => false,
    }
}

/// How often a rule tries again.
fn retries(rule: &FailRule) -> u32
    ensures { result ≡ allowed_retries rule.now }
{
    match rule {
        FailRule::Abort => 0,
        FailRule::Retry(times) => *times,
        FailRule::Recover(_) => 0,
    }
}

/// What a rule makes of a point whose last attempt failed too.
fn given_up(rule: &FailRule, attempts: u32) -> Answer<'_>
    ensures { told result ≡ answer_given_up rule.now attempts }
{
    match rule {
        FailRule::Abort => Answer::Dead { attempts },
        FailRule::Retry(_) => Answer::Dead { attempts },
        FailRule::Recover(values) => Answer::Value(values.items()),
    }
}
