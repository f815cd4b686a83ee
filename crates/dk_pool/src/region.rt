//! A block of memory that is written from the front.
ghost use Rattle.std.specs.Prelude.{◌≡◌, ◌+◌, ◌^◌, ◌<◌, ◌≤◌, List, [], ◌++◌, length, take, drop, IfOk};
ghost use Rattle.std.specs.Vec.Ownership.{FitsInBlock};
ghost use Rattle.dk_pool.specs.Region.{region_owns, region_lent, put};

use std::alloc::{AllocError, Allocator};
use std::marker::{Model, PhantomData, Send, Sync};
use std::mem::{align_of, size_of};
use std::slice;

/// A block with room for so many values, of which the first are written.
///
/// It has no `Drop`, so that its owner has to give it back to the allocator that it is from.
pub(crate) struct Region<T, A: Allocator> {
    start: *mut T,
    room: usize,
    by: PhantomData<A>,
    ghost values: { List T },
    ghost alloc: { A },
    ghost within: { length values ≤ room },
    ghost small: { room < 2 ^ 63 },
}

impl<T, A: Allocator> Model for Region<T, A> {
    ghost also_owns = { λ r. region_owns T.row (A.dealloc_token r.alloc) r.start r.room r.values };

    ghost also_shares = { λ r _ κ. region_lent T.row r.start r.room r.values κ };
}

unsafe impl<T: Send, A: Allocator + Send> Send for Region<T, A> {}

unsafe impl<T: Sync, A: Allocator + Sync> Sync for Region<T, A> {}

impl<T, A: Allocator> Region<T, A> {
    /// Takes a block with room for so many values, of which none is written.
    pub(crate) fn reserve(alloc: &A, room: usize) -> Result<Region<T, A>, AllocError>
        requires { FitsInBlock T.row room }
        ensures { IfOk result (λ r. (r.room ≡ room) × (r.values ≡ []) × (r.alloc ≡ alloc.now)) }
    {
        match alloc.allocate(room * size_of::<T>(), align_of::<T>()) {
            Ok(block) => Ok(Region {
                start: block as *mut T,
                room,
                by: PhantomData,
            }),
            Err(error) => Err(error),
        }
    }

    /// Writes the value at this place: over the one that is there, which is forgotten, or behind the last.
    pub(crate) fn write(&mut self, place: usize, value: T)
        requires { (place ≤ length self.old.values) × (place < self.old.room) }
        ensures { (self.new.room ≡ self.old.room) × (self.new.alloc ≡ self.old.alloc) × (self.new.values ≡ put self.old.values place value) }
    {
        unsafe { self.start.add(place).write(value) }
    }

    /// Writes the values from this place on, over those that are there and behind the last.
    pub(crate) fn write_all(&mut self, place: usize, values: &[T])
    where
        T: Copy,
        requires within { (place ≤ length self.old.values) × (place + length values.now ≤ self.old.room) }
        ensures block { (self.new.room ≡ self.old.room) × (self.new.alloc ≡ self.old.alloc) }
        ensures written { take (place + length values.now) self.new.values ≡ take place self.old.values ++ values.now }
        ensures reaches { place + length values.now ≤ length self.new.values }
    {
        for i in 0..values.len() {
            self.write(place + i, values[i]);
        }
    }

    /// So many of the written values, from this place on.
    pub(crate) fn view(&self, place: usize, count: usize) -> &[T]
        requires { place + count ≤ length self.now.values }
        ensures { result.now ≡ take count (drop place self.now.values) }
    {
        unsafe { slice::from_raw_parts(self.start.add(place), count) }
    }

    /// Gives the block back to the allocator that it is from.
    pub(crate) fn give_back(self, alloc: &A)
        requires { self.alloc ≡ alloc.now }
    {
        let Region { start, room, by: _ } = self;
        unsafe { alloc.deallocate(start as *mut u8, room * size_of::<T>(), align_of::<T>()) }
    }
}
