// A disk in memory.
ghost use Rattle.std.specs.Prelude.{◌≡◌, ◌⊎◌, ◌≤◌, length, option_map, IfOk, IfSome, OnErr, Some};
ghost use Rattle.std.specs.Io.{ReadsAtMost};
ghost use Rattle.dk_outside.specs.Causes.{HasCause};
ghost use Rattle.dk_outside.specs.Disks.{IsImage, broke, ReadsFrom, HasLength, Writes, Syncs};
ghost use Rattle.dk_memory.specs.Calls.{fresh, called, refused, IsDue, IsCounted, IsCountedGrowth};
ghost use Rattle.dk_memory.specs.Events.{start, course_of};
ghost use Rattle.dk_memory.specs.Images.{image_of, standing_at};
ghost use Rattle.dk_memory.specs.DiskStates.{disk_state};

use crate::calls::Calls;
use crate::image::Image;
use crate::kept::Kept;
use dk_outside::{Disk, Failed};
use std::alloc::{AllocError, Global};

/// A disk in memory. It fails at the calls of the given numbers, counted from 1, at all calls from `stop` on, and where
/// it finds no memory. It keeps its writes, so that the images of each moment can be made.
///
/// A write that fails by its number makes its range pending and leaves the bytes that reads give as they were. One that
/// finds no memory to keep its range changes nothing.
#[derive(Drop)]
pub struct MemDisk {
    alloc: Global,
    kept: Kept,
    calls: Calls,
}

impl MemDisk {
    /// A disk with these bytes, which are its one image. The calls of these numbers fail, and all from `stop` on.
    pub fn disk(
        alloc: Global,
        bytes: &[u8],
        fail: &[u64],
        stop: Option<u64>,
    ) -> Result<MemDisk, AllocError>
        ensures { IfOk result (λ disk. disk_state disk ≡ record { course = start bytes.now; calls = fresh fail.now stop }) }
    {
        Ok(MemDisk {
            alloc,
            kept: Kept::of(alloc, bytes)?,
            calls: Calls::of(fail.to_vec(alloc)?, stop),
        })
    }

    /// The present moment, counted from 0.
    pub fn moments(&self) -> u64
        ensures { result ≡ length (disk_state self.now).course.earlier }
    {
        self.kept.moments()
    }

    /// An image of a moment, which isn't later than the present one.
    pub fn image(&self, moment: u64, image: Image) -> Result<Vec<u8>, AllocError>
        requires { moment ≤ length (disk_state self.now).course.earlier }
        ensures made { IfOk result (λ left. option_map (image_of image) (standing_at (disk_state self.now).course moment) ≡ Some left.items) }
        ensures is_image { IfOk result (λ left. IfSome (standing_at (disk_state self.now).course moment) (λ standing. IsImage standing left.items)) }
    {
        self.kept.image(self.alloc, moment, image)
    }

    /// How many calls failed for want of memory.
    pub fn refused(&self) -> u64
        ensures { result ≡ (disk_state self.now).calls.refused }
    {
        self.calls.refused()
    }
}

impl Disk for MemDisk {
    ghost use Rattle.std.proofs.lemmas.List.Elements.{All-head};
    ghost use Rattle.dk_memory.specs.Images.{AreImages};

    ghost told = { λ disk. Some (disk_state disk).course };

    ghost faults = { λ disk. (disk_state disk).calls.faults };

    ghost shows = { λ disk. (All-head AreImages (disk_state disk).course.now (disk_state disk).course.earlier disk.kept.left).shown };

    fn length(&mut self) -> Result<u64, Failed>
        ensures length { HasLength (Some (disk_state self.old).course) result }
        ensures told { Some (disk_state self.new).course ≡ Some (disk_state self.old).course }
        ensures cause { HasCause (disk_state self.old).calls.faults (disk_state self.new).calls.faults result }
        ensures counted { IsCounted (disk_state self.old).calls (disk_state self.new).calls (IsDue (disk_state self.old).calls (disk_state self.new).calls.made) result }
    {
        if self.calls.is_due() {
            return Err(self.calls.fail());
        }
        Ok(self.kept.bytes().len() as u64)
    }

    fn read_at(&mut self, at: u64, buf: &mut [u8]) -> Result<usize, Failed>
        ensures bound { ReadsAtMost result buf.new }
        ensures bytes { ReadsFrom (Some (disk_state self.old).course) result at buf.new }
        ensures told { Some (disk_state self.new).course ≡ Some (disk_state self.old).course }
        ensures cause { HasCause (disk_state self.old).calls.faults (disk_state self.new).calls.faults result }
        ensures counted { IsCounted (disk_state self.old).calls (disk_state self.new).calls (IsDue (disk_state self.old).calls (disk_state self.new).calls.made) result }
    {
        if self.calls.is_due() {
            return Err(self.calls.fail());
        }
        let bytes = self.kept.bytes();
        let from = at.min(bytes.len() as u64) as usize;
        let rest = &bytes[from..];
        let count = rest.len().min(buf.len());
        buf[..count].copy_from_slice(&rest[..count]);
        Ok(count)
    }

    fn write_at(&mut self, at: u64, bytes: &[u8]) -> Result<(), Failed>
        requires { at ≤ length (disk_state self.old).course.now.bytes }
        ensures writes { Writes (Some (disk_state self.old).course) (Some (disk_state self.new).course) result at bytes.now }
        ensures cause { HasCause (disk_state self.old).calls.faults (disk_state self.new).calls.faults result }
        ensures counted { IsCountedGrowth (disk_state self.old).calls (disk_state self.new).calls (IsDue (disk_state self.old).calls (disk_state self.new).calls.made) result }
        ensures pending { OnErr result (((disk_state self.new).course ≡ broke at (length bytes.now) (disk_state self.old).course.now.bytes (disk_state self.old).course) ⊎ ((disk_state self.new).calls ≡ refused (called (disk_state self.old).calls))) }
    {
        let at = at as usize;
        if self.calls.is_due() {
            return match self.kept.fail_write(at, bytes.len()) {
                Ok(()) => Err(self.calls.fail()),
                Err(_) => Err(self.calls.refuse()),
            };
        }
        match self.kept.write(self.alloc, at, bytes) {
            Ok(()) => Ok(()),
            Err(_) => Err(self.calls.refuse()),
        }
    }

    fn sync(&mut self) -> Result<(), Failed>
        ensures syncs { Syncs (Some (disk_state self.old).course) (Some (disk_state self.new).course) result }
        ensures cause { HasCause (disk_state self.old).calls.faults (disk_state self.new).calls.faults result }
        ensures counted { IsCountedGrowth (disk_state self.old).calls (disk_state self.new).calls (IsDue (disk_state self.old).calls (disk_state self.new).calls.made) result }
    {
        let due = self.calls.is_due();
        if due {
            return Err(self.calls.fail());
        }
        match self.kept.sync() {
            Ok(()) => Ok(()),
            Err(_) => Err(self.calls.refuse()),
        }
    }
}
