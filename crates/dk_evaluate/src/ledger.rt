// A book of attempts, and the journal that keeps them.
ghost use Rattle.std.specs.Prelude.{◌≡◌, ◌+◌, ◌≤◌, List, [], ◌∷◌, length, slice_get, option_map, IfSome, OnOk, OnErr, IsErrOf, Some};
ghost use Rattle.dk_outside.specs.Causes.{Rose};
ghost use Rattle.dk_types.specs.declared.entry.Entry.{Entry};
ghost use Rattle.dk_types.specs.Entries.{kept, values_of};
ghost use Rattle.dk_book.specs.Books.{IsBook, IsDue, with_attempt, room_taken};
ghost use Rattle.dk_journal.specs.declared.fault.AppendFault.{AppendFault};
ghost use Rattle.dk_journal.specs.Journals.{IsReadyFor, ComesNext};
ghost use Rattle.dk_evaluate.specs.Keeping.{Keeps, KeepsOne, entry_with};

use dk_book::{Book, CardId};
use dk_journal::{AppendFault, Journal};
use dk_num::Dec;
use dk_outside::Disk;
use dk_types::Outcome;

/// What is known of the attempts that were made: the book has their outcomes in memory, the journal on a disk.
#[derive(Drop)]
pub struct Ledger<K: Disk> {
    pub journal: Journal<K>,
    pub book: Book,
}

impl<K: Disk> Ledger<K> {
    /// Appends what the next attempt of a card's point gave to the journal, and then adds it to the book. Where it wasn't
    /// appended, the book is as it was.
    pub fn keep(
        &mut self,
        card: CardId,
        attempt: u32,
        point: &[Dec],
        outcome: Outcome<'_>,
    ) -> Result<(), AppendFault>
        requires there { option_map (λ c. c.point) (slice_get self.old.book.cards card.index) ≡ Some point.now }
        requires due { IfSome (slice_get self.old.book.cards card.index) (λ c. IsDue c attempt) }
        requires values { IfSome (values_of (kept outcome)) (λ values. length values ≡ self.old.book.responses) }
        requires room { room_taken (kept outcome) ≤ self.old.book.room }
        requires ready { IsReadyFor self.old.journal (entry_with point.now attempt (kept outcome)) }
        ensures keeps { (entries : List Entry) → Keeps self.old.book self.old.journal entries → ComesNext self.old.journal.shape entries (entry_with point.now attempt (kept outcome.entry)) →
            KeepsOne self.old.book self.new.book self.old.journal self.new.journal entries (entry_with point.now attempt (kept outcome.entry)) result }
        ensures cards { OnOk result (self.new.book.cards ≡ with_attempt self.old.book.cards card.index (kept outcome.entry)) }
        ensures room { OnOk result (self.new.book.room + room_taken (kept outcome.entry) ≡ self.old.book.room) }
        ensures spare { OnOk result (self.new.book.spare ≡ self.old.book.spare) }
        ensures variables { OnOk result (self.new.book.variables ≡ self.old.book.variables) }
        ensures responses { OnOk result (self.new.book.responses ≡ self.old.book.responses) }
        ensures book { OnOk result (IsBook self.new.book) }
        ensures same_book { OnErr result (self.new.book ≡ self.old.book) }
        ensures disk { IsErrOf result AppendFault.Disk → Rose self.old.journal.faults self.new.journal.faults }
        ensures later { self.old.journal.faults ≤ self.new.journal.faults }
        ensures shape { self.new.journal.shape ≡ self.old.journal.shape }
        ensures limit { self.new.journal.limit ≡ self.old.journal.limit }
    {
        match self.journal.append(point, attempt, outcome) {
            Ok(_) => {
                self.book.add(card, attempt, outcome);
                Ok(())
            }
            Err(fault) => Err(fault),
        }
    }
}
