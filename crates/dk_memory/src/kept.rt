// The calls that a disk in memory keeps, and the bytes that reads give.
ghost use Rattle.std.specs.Prelude.{◌≡◌, ◌≤◌, All, length, option_map, IfOk, IfSome, OnOk, OnErr, Some};
ghost use Rattle.dk_outside.specs.Disks.{IsImage, moments, wrote, broke, all_synced};
ghost use Rattle.dk_memory.specs.Events.{start, course_of};
ghost use Rattle.dk_memory.specs.Images.{AreImages, image_of, standing_at};

use crate::event::Event;
use crate::image::{Image, replay};
use crate::overwrite::overwrite;
use std::alloc::{AllocError, Global};

/// The bytes at the start, the calls that made a moment since, and the bytes that reads give now.
#[derive(Drop)]
pub struct Kept {
    first: Vec<u8>,
    events: Vec<Event>,
    bytes: Vec<u8>,
    ghost present: { bytes.items ≡ (course_of first.items events.items).now.bytes },
    ghost left: { All AreImages (moments (course_of first.items events.items)) },
}

impl Kept {
    /// These bytes, and no call.
    #[tactic(auto, using(crate::proofs::Imaging::start_left))]
    pub fn of(alloc: Global, bytes: &[u8]) -> Result<Kept, AllocError>
        ensures { IfOk result (λ kept. course_of kept.first.items kept.events.items ≡ start bytes.now) }
    {
        Ok(Kept {
            first: bytes.to_vec(alloc)?,
            events: Vec::new(alloc),
            bytes: bytes.to_vec(alloc)?,
        })
    }

    /// The bytes that reads give.
    pub fn bytes(&self) -> &[u8]
        ensures { result.now ≡ (course_of self.now.first.items self.now.events.items).now.bytes }
    {
        &self.bytes
    }

    /// How many calls made a moment.
    #[tactic(auto, using(crate::proofs::Replays::moments_counted))]
    pub fn moments(&self) -> u64
        ensures { result ≡ length (course_of self.now.first.items self.now.events.items).earlier }
    {
        self.events.len() as u64
    }

    /// An image of a moment, which isn't later than the present one.
    #[tactic(auto, using(crate::proofs::Replays::moments_counted, crate::proofs::Replays::stood_at, crate::proofs::Imaging::made_image))]
    pub fn image(&self, alloc: Global, moment: u64, image: Image) -> Result<Vec<u8>, AllocError>
        requires { moment ≤ length (course_of self.now.first.items self.now.events.items).earlier }
        ensures made { IfOk result (λ left. option_map (image_of image) (standing_at (course_of self.now.first.items self.now.events.items) moment) ≡ Some left.items) }
        ensures is_image { IfOk result (λ left. IfSome (standing_at (course_of self.now.first.items self.now.events.items) moment) (λ standing. IsImage standing left.items)) }
    {
        replay(alloc, image, &self.first, &self.events[..moment as usize])
    }

    /// Writes a piece. For want of memory all stays.
    pub fn write(&mut self, alloc: Global, at: usize, piece: &[u8]) -> Result<(), AllocError>
        requires { at ≤ length (course_of self.old.first.items self.old.events.items).now.bytes }
        ensures writes { OnOk result (course_of self.new.first.items self.new.events.items ≡ wrote at piece.now (course_of self.old.first.items self.old.events.items)) }
        ensures stays { OnErr result (course_of self.new.first.items self.new.events.items ≡ course_of self.old.first.items self.old.events.items) }
    {
        match overwrite(alloc, &mut self.bytes, &mut self.events, at, piece) {
            Ok(()) => Ok(()),
            Err(_) => Err(AllocError),
        }
    }

    /// A write of so many bytes fails, and leaves what reads give. For want of memory all stays.
    pub fn fail_write(&mut self, at: usize, count: usize) -> Result<(), AllocError>
        requires { at ≤ length (course_of self.old.first.items self.old.events.items).now.bytes }
        ensures breaks { OnOk result (course_of self.new.first.items self.new.events.items ≡ broke at count (course_of self.old.first.items self.old.events.items).now.bytes (course_of self.old.first.items self.old.events.items)) }
        ensures stays { OnErr result (course_of self.new.first.items self.new.events.items ≡ course_of self.old.first.items self.old.events.items) }
    {
        match self.events.push(Event::Broke { at, count }) {
            Ok(()) => Ok(()),
            Err(_) => Err(AllocError),
        }
    }

    /// What was written stands after a crash. For want of memory all stays.
    #[tactic(auto, using(crate::proofs::Imaging::synced_left))]
    pub fn sync(&mut self) -> Result<(), AllocError>
        ensures syncs { OnOk result (course_of self.new.first.items self.new.events.items ≡ all_synced (course_of self.old.first.items self.old.events.items)) }
        ensures stays { OnErr result (course_of self.new.first.items self.new.events.items ≡ course_of self.old.first.items self.old.events.items) }
    {
        self.events.push(Event::Synced)?;
        Ok(())
    }
}
