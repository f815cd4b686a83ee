// The open journal.
ghost use Rattle.std.specs.Prelude.{◌≡◌, ◌↔◌, ℕ, ◌+◌, ◌^◌, ◌≤◌, List, length, Err, IfOk, IfErr, IfSome, IsErrOf, IsErrAnd, MatchResult};
ghost use Rattle.dk_outside.specs.Causes.{Rose};
ghost use Rattle.dk_types.specs.declared.entry.Entry.{Entry};
ghost use Rattle.dk_types.specs.Entries.{kept};
ghost use Rattle.dk_record.specs.Payloads.{header_payload, IsShape};
ghost use Rattle.dk_journal.specs.declared.fault.OpenFault.{OpenFault as FaultOf};
ghost use Rattle.dk_journal.specs.Openings.{Opens, Refuses, IsRefused, IsUnlessFailed, OpensOverTold};
ghost use Rattle.dk_journal.specs.Journals.{Holds, ComesNext, IsReadyFor, IsTooLong, Appends};

use crate::fault::{AppendFault, OpenFault};
use crate::opening::open_file;
use crate::steps::put_front;
use dk_book::Book;
use dk_num::Dec;
use dk_outside::{Disk, Failed, Mode};
use dk_record::write_record;
use dk_types::{Outcome, Shape};
use std::alloc::Global;
use std::marker::Model;

/// A restart file that was opened. Contracts see what its disk tells, the labels, where the end gate stands, how many
/// entries there are and how many bytes it may have, and whether it is whole.
#[derive(Drop)]
pub struct Journal<K: Disk> {
    disk: K,
    shape: Shape,
    end: u64,
    entries: u64,
    limit: u64,
    whole: bool,
    buffer: Vec<u8>,
}

impl<K: Disk> Model for Journal<K> {
    ghost use Rattle.std.specs.Prelude.{◌≡◌, ◌+◌, ◌*◌, ◌^◌, ◌≤◌, length};
    ghost use Rattle.dk_journal.specs.Journals.{JournalState};

    ghost Value = { JournalState };

    ghost view = { λ j. record { told = K.told j.disk; faults = K.faults j.disk; shape = j.shape; end = j.end; entries = j.entries; limit = j.limit; whole = j.whole } };

    ghost invariant = { λ j. (length j.buffer.items ≡ 18 * (length j.shape.variables + length j.shape.responses) + 6) × (j.end + 1 ≤ j.limit) × (j.limit ≤ 2 ^ 28) × (j.entries ≤ j.end) };
}

/// A journal that was opened, and the book of its entries.
#[derive(Drop)]
pub struct Opened<K: Disk> {
    pub journal: Journal<K>,
    pub book: Book,
}

/// Why a restart file wasn't opened, and its disk.
#[derive(Drop)]
pub struct Refused<K: Disk> {
    pub fault: OpenFault,
    pub disk: K,
}

impl<K: Disk> Journal<K> {
    /// Opens the restart file of a disk for these labels, and takes its entries into a book.
    ///
    /// The labels are some that a header can hold, `limit`, in bytes, has room for the header and two gates and is at
    /// most 2^28, and `cards` is at most 100,000.
    ///
    /// The bytes of the file are synced first and read once. It is refused with `TooLarge` exactly where it is longer
    /// than `limit`; then with `NotEmpty` exactly where it has bytes and the mode is `Fresh`; then, where it has two
    /// bytes or more and the first isn't zero, with `NotARestart`, `OtherShape` or `Damaged` exactly where no header
    /// stands behind the first byte, the header has other labels, or its records can't be read to an end gate. `Disk`
    /// comes only where the disk failed in this call. Where the fault is another than `Disk` nothing was written.
    ///
    /// On `Ok` the file stands for the entries of the book, none in mode `Fresh`. The book has the widths of the labels, and
    /// room for `cards` cards more, each of them with values. A file that has at most one byte or begins with a zero byte had no entries,
    /// and was begun. In any other file nothing is written.
    ///
    /// Whatever the answer, a crash at any moment leaves the entries that the file stood for.
    pub fn open(
        alloc: Global,
        disk: K,
        shape: &Shape,
        mode: Mode,
        limit: u64,
        cards: usize,
    ) -> Result<Opened<K>, Refused<K>>
        requires shape { IsShape shape.now }
        requires limit_from { length (header_payload shape.now) + 2 ≤ limit }
        requires limit_to { limit ≤ 2 ^ 28 }
        requires cards { cards ≤ 100000 }
        ensures opened { IfOk result (λ o. Opens mode shape.now limit cards (K.told disk) o.journal o.book) }
        ensures refused { IfErr result (λ r. IsRefused mode shape.now limit (K.told disk) (K.told r.disk) (K.faults disk) (K.faults r.disk) r.fault) }
        ensures exact { IfSome (K.told disk) (λ course. (fault : FaultOf) → Refuses mode shape.now limit course.now.bytes fault → IsErrAnd result (λ r. IsUnlessFailed fault r.fault)) }
        ensures over { MatchResult result (λ o. OpensOverTold shape.now (K.told disk) o.journal.told) (λ r. OpensOverTold shape.now (K.told disk) (K.told r.disk)) }
        ensures later { MatchResult result (λ o. K.faults disk ≤ o.journal.faults) (λ r. K.faults disk ≤ K.faults r.disk) }
    {
        let mut disk = disk;
        match open_file(alloc, &mut disk, shape, mode, limit, cards) {
            Ok((found, parts)) => Ok(Opened {
                journal: Journal {
                    disk,
                    shape: parts.shape,
                    end: found.end,
                    entries: found.count,
                    limit,
                    whole: true,
                    buffer: parts.buffer,
                },
                book: found.book,
            }),
            Err(fault) => Err(Refused { fault, disk }),
        }
    }

    /// Whether no append failed on the disk. A journal that isn't whole takes no entries any more.
    pub fn is_whole(&self) -> bool
        ensures tells_whole { result ≡ self.now.whole }
    {
        self.whole
    }

    /// How many entries there are.
    pub fn entries(&self) -> u64
        ensures counts_entries { result ≡ self.now.entries }
    {
        self.entries
    }

    /// How many variables the labels name, which is how many decimals a point has.
    pub fn variables(&self) -> usize
        ensures counts_variables { result ≡ length self.now.shape.variables }
    {
        self.shape.variables.items().len()
    }

    /// The disk, as the journal left it.
    pub fn give_back(self) -> K
        ensures told { K.told result ≡ self.told }
        ensures faults { K.faults result ≡ self.faults }
    {
        self.disk
    }

    /// Appends an entry, and answers its number, counted from 0.
    ///
    /// The journal is whole, and the entry has the widths of the labels and is the next attempt of its point. At each
    /// moment a crash leaves the entries with this one or without, and once it was answered, with it.
    ///
    /// `Disk` comes only where the disk failed in this call. The journal isn't whole any more then, and its file stands
    /// for the entries with this one or without. `Full` comes exactly where the file would be longer than it may, and
    /// tells how long; nothing changed then.
    pub fn append(
        &mut self,
        point: &[Dec],
        attempt: u32,
        outcome: Outcome<'_>,
    ) -> Result<u64, AppendFault>
        requires ready { IsReadyFor self.old (record { point = point.now; attempt = attempt; said = kept outcome }) }
        ensures appends { (entries : List Entry) → Holds self.old entries → ComesNext self.old.shape entries (record { point = point.now; attempt = attempt; said = kept outcome.entry }) →
            Appends self.old self.new entries (record { point = point.now; attempt = attempt; said = kept outcome.entry }) result }
        ensures full { (entries : List Entry) → Holds self.old entries → (size : ℕ) →
            (result ≡ Err (AppendFault.Full size)) ↔ IsTooLong self.old entries (record { point = point.now; attempt = attempt; said = kept outcome.entry }) size }
        ensures disk { IsErrOf result AppendFault.Disk → Rose self.old.faults self.new.faults }
        ensures later { self.old.faults ≤ self.new.faults }
        ensures shape { self.new.shape ≡ self.old.shape }
        ensures limit { self.new.limit ≡ self.old.limit }
    {
        let buffer = self.buffer.as_mut_slice();
        let size = write_record(point, attempt, outcome, buffer);
        let length = self.end + 2 + size as u64;
        if length > self.limit {
            return Err(AppendFault::Full { length });
        }
        match put_front(&mut self.disk, self.end, buffer, size) {
            Ok(()) => {
                let number = self.entries;
                self.entries += 1;
                self.end += size as u64 + 1;
                Ok(number)
            }
            Err(Failed) => {
                self.whole = false;
                Err(AppendFault::Disk)
            }
        }
    }
}
