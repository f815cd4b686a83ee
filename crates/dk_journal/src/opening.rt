// The opening of a restart file.
ghost use Rattle.std.specs.Prelude.{◌≡◌, ◌+◌, ◌*◌, ◌^◌, ◌↔◌, ◌≤◌, ◌++◌, [], ◌∷◌, true, length, IsTrue, IfOk, IfErr, IfSome};
ghost use Rattle.dk_outside.specs.Disks.{settled};
ghost use Rattle.dk_types.specs.declared.study.Shape.{Shape as ShapeOf};
ghost use Rattle.dk_record.specs.Payloads.{header_payload, IsShape};
ghost use Rattle.dk_record.specs.Files.{IsUnborn};
ghost use Rattle.dk_journal.specs.Damages.{HasEntries};
ghost use Rattle.dk_journal.specs.Openings.{Opens, OpensOverTold, IsRefused};
ghost use Rattle.dk_journal.specs.Judging.{IsUntouchedTold, IsRead, IsFound, IsBad, IsMissed, GoesOnTold, IsSound};

use crate::birth::begin;
use crate::fault::OpenFault;
use crate::fetch::{FetchFault, fetch};
use crate::reading::{Reading, read_file};
use dk_book::Book;
use dk_outside::{Disk, Failed, Mode};
use dk_record::header;
use dk_types::Shape;
use std::alloc::{AllocError, Global};

/// Whether the file is to have no bytes.
fn is_fresh(mode: Mode) -> bool
    ensures { IsTrue result ↔ mode ≡ Mode.Fresh }
{
    match mode {
        Mode::Fresh => true,
        Mode::Resume => false,
    }
}

/// What was found in a restart file: its entries in a book, how many there are, and where the end gate stands.
#[derive(Drop)]
pub(crate) struct Found {
    pub book: Book,
    pub count: u64,
    pub end: u64,
}

/// What a journal needs beside its disk: its labels, and a buffer for a record.
#[derive(Drop)]
pub(crate) struct Parts {
    pub shape: Shape,
    pub buffer: Vec<u8>,
}

/// The labels and a buffer for a record and an end gate.
fn take_parts(alloc: Global, shape: &Shape) -> Result<Parts, AllocError>
    requires { IsShape shape.now }
    ensures shape { IfOk result (λ parts. parts.shape ≡ shape.now) }
    ensures buffer { IfOk result (λ parts. length parts.buffer.items ≡ 18 * (length shape.now.variables + length shape.now.responses) + 6) }
{
    let decimals = shape.variables.items().len() + shape.responses.items().len();
    Ok(Parts {
        shape: copy_shape(alloc, shape)?,
        buffer: vec![in alloc; 0u8; 18 * decimals + 6]?,
    })
}

/// Equal labels.
fn copy_shape(alloc: Global, shape: &Shape) -> Result<Shape, AllocError>
    ensures { IfOk result (λ copy. copy ≡ shape.now) }
{
    Ok(Shape {
        variables: shape.variables.copy(alloc)?,
        responses: shape.responses.copy(alloc)?,
    })
}

/// Whether no entry was ever kept in a file: it has at most one byte, or begins with a closed gate.
pub(crate) fn is_unborn(bytes: &[u8]) -> bool
    ensures { IsTrue result ↔ IsUnborn bytes.now }
{
    bytes.len() <= 1 || bytes[0] == 0
}

/// The bytes of a file, which are synced first, where the mode and the limit allow so many.
fn read_in<K: Disk>(
    alloc: Global,
    disk: &mut K,
    mode: Mode,
    limit: u64,
) -> Result<Vec<u8>, OpenFault>
    requires { limit ≤ 2 ^ 28 }
    ensures read { IfOk result (λ bytes. IsRead mode limit (K.told disk.old) (K.told disk.new) bytes.items) }
    ensures refused { IfErr result (λ fault. (shape : ShapeOf) → IsRefused mode shape limit (K.told disk.old) (K.told disk.new) (K.faults disk.old) (K.faults disk.new) fault) }
    ensures untouched { IsUntouchedTold (K.told disk.old) (K.told disk.new) }
    ensures later { K.faults disk.old ≤ K.faults disk.new }
{
    let Ok(()) = disk.sync() else {
        return Err(OpenFault::Disk);
    };
    let Ok(length) = disk.length() else {
        return Err(OpenFault::Disk);
    };
    if length > limit {
        return Err(OpenFault::TooLarge { length });
    }
    if is_fresh(mode) && length > 0 {
        return Err(OpenFault::NotEmpty { length });
    }
    match fetch(alloc, disk, length as usize) {
        Ok(bytes) => Ok(bytes),
        Err(FetchFault::Disk) => Err(OpenFault::Disk),
        Err(FetchFault::NoMemory) => Err(OpenFault::NoMemory),
    }
}

/// What stands in a file that isn't unborn.
fn take_over(alloc: Global, bytes: &[u8], shape: &Shape, cards: usize) -> Result<Found, OpenFault>
    requires born { IsUnborn bytes.now → ⊥ }
    requires few { length bytes.now ≤ 2 ^ 28 }
    requires shape { IsShape shape.now }
    requires cards { cards ≤ 100000 }
    ensures found { IfOk result (λ found. HasEntries shape.now bytes.now cards found.book found.count found.end) }
    ensures bad { IfErr result (λ fault. IsBad shape.now bytes.now fault) }
{
    let Ok(reading) = read_file(alloc, bytes, shape, cards) else {
        return Err(OpenFault::NoMemory);
    };
    match reading {
        Reading::Entries { book, count, end } => Ok(Found {
            book,
            count,
            end: end as u64,
        }),
        Reading::NotARestart => Err(OpenFault::NotARestart),
        Reading::OtherShape { stored } => match copy_shape(alloc, shape) {
            Ok(wanted) => Err(OpenFault::OtherShape { stored, wanted }),
            Err(_) => Err(OpenFault::NoMemory),
        },
        Reading::Damaged { offset } => Err(OpenFault::Damaged {
            offset: offset as u64,
        }),
    }
}

/// The header of a file, and an end gate.
fn empty_file(alloc: Global, shape: &Shape) -> Result<Vec<u8>, AllocError>
    requires { IsShape shape.now }
    ensures { IfOk result (λ bytes. bytes.items ≡ header_payload shape.now ++ 0 ∷ []) }
{
    let mut bytes = Vec::new(alloc);
    header(shape, &mut bytes)?;
    bytes.push(0)?;
    Ok(bytes)
}

/// Begins a file of these bytes, in which no entry was ever kept. All memory is taken before the first write.
fn start<K: Disk>(
    alloc: Global,
    disk: &mut K,
    bytes: &[u8],
    shape: &Shape,
    cards: usize,
) -> Result<Found, OpenFault>
    requires unborn { IsUnborn bytes.now }
    requires rests { IfSome (K.told disk.old) (λ course. course.now ≡ settled bytes.now) }
    requires shape { IsShape shape.now }
    requires cards { cards ≤ 100000 }
    ensures found { IfOk result (λ found. IsFound shape.now cards bytes.now (K.told disk.new) found.book found.count found.end) }
    ensures missed { IfErr result (λ fault. IsMissed shape.now bytes.now (K.told disk.old) (K.told disk.new) (K.faults disk.old) (K.faults disk.new) fault) }
    ensures goes_on { GoesOnTold shape.now bytes.now (K.told disk.old) (K.told disk.new) }
    ensures later { K.faults disk.old ≤ K.faults disk.new }
{
    let variables = shape.variables.items().len();
    let responses = shape.responses.items().len();
    let Ok(book) = Book::reserve(alloc, variables, responses, cards, cards) else {
        return Err(OpenFault::NoMemory);
    };
    let Ok(file) = empty_file(alloc, shape) else {
        return Err(OpenFault::NoMemory);
    };
    match begin(disk, bytes.len() as u64, &file) {
        Ok(()) => Ok(Found {
            book,
            count: 0,
            end: file.len() as u64,
        }),
        Err(Failed) => Err(OpenFault::Disk),
    }
}

/// What stands in a file of these bytes. One in which no entry was ever kept is begun.
fn judge<K: Disk>(
    alloc: Global,
    disk: &mut K,
    bytes: &[u8],
    shape: &Shape,
    cards: usize,
) -> Result<Found, OpenFault>
    requires rests { IfSome (K.told disk.old) (λ course. course.now ≡ settled bytes.now) }
    requires few { length bytes.now ≤ 2 ^ 28 }
    requires shape { IsShape shape.now }
    requires cards { cards ≤ 100000 }
    ensures found { IfOk result (λ found. IsFound shape.now cards bytes.now (K.told disk.new) found.book found.count found.end) }
    ensures missed { IfErr result (λ fault. IsMissed shape.now bytes.now (K.told disk.old) (K.told disk.new) (K.faults disk.old) (K.faults disk.new) fault) }
    ensures goes_on { GoesOnTold shape.now bytes.now (K.told disk.old) (K.told disk.new) }
    ensures later { K.faults disk.old ≤ K.faults disk.new }
{
    if is_unborn(bytes) {
        start(alloc, disk, bytes, shape, cards)
    } else {
        take_over(alloc, bytes, shape, cards)
    }
}

/// Opens the file of a disk.
pub(crate) fn open_file<K: Disk>(
    alloc: Global,
    disk: &mut K,
    shape: &Shape,
    mode: Mode,
    limit: u64,
    cards: usize,
) -> Result<(Found, Parts), OpenFault>
    requires shape { IsShape shape.now }
    requires limit_from { length (header_payload shape.now) + 2 ≤ limit }
    requires limit_to { limit ≤ 2 ^ 28 }
    requires cards { cards ≤ 100000 }
    ensures opened { IfOk result (λ file. Opens mode shape.now limit cards (K.told disk.old)
        (record { told = K.told disk.new; faults = K.faults disk.new; shape = file.1.shape; end = file.0.end; entries = file.0.count; limit = limit; whole = true }) file.0.book) }
    ensures fits { IfOk result (λ file. IsSound limit file.1.shape file.1.buffer.items file.0.count file.0.end) }
    ensures refused { IfErr result (λ fault. IsRefused mode shape.now limit (K.told disk.old) (K.told disk.new) (K.faults disk.old) (K.faults disk.new) fault) }
    ensures over { OpensOverTold shape.now (K.told disk.old) (K.told disk.new) }
    ensures later { K.faults disk.old ≤ K.faults disk.new }
{
    let bytes = match read_in(alloc, disk, mode, limit) {
        Ok(bytes) => bytes,
        Err(fault) => return Err(fault),
    };
    let Ok(parts) = take_parts(alloc, shape) else {
        return Err(OpenFault::NoMemory);
    };
    match judge(alloc, disk, &bytes, shape, cards) {
        Ok(found) => Ok((found, parts)),
        Err(fault) => Err(fault),
    }
}
