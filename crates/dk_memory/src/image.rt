// What a crash leaves, made from the calls that a disk keeps.
ghost use Rattle.std.specs.Prelude.{◌≡◌, IfOk};
ghost use Rattle.dk_outside.specs.declared.course.Course.{Course};
ghost use Rattle.dk_outside.specs.Disks.{written_over};
ghost use Rattle.dk_memory.specs.Events.{course_of, step};
ghost use Rattle.dk_memory.specs.Images.{image_of, loosened};

use crate::event::Event;
use std::alloc::{AllocError, Global};

/// One of the images of a moment.
#[derive(Clone, Copy, Debug, PartialEq, Eq)]
pub enum Image {
    /// Pending bytes as at the last sync, with the length of then.
    Old,
    /// As written.
    New,
    /// Pending bytes all equal to this one, with the greatest length.
    Fill(u8),
}

/// A piece over bytes and past their end, as new bytes.
fn overlay(alloc: Global, bytes: &[u8], at: usize, piece: &[u8]) -> Result<Vec<u8>, AllocError>
    ensures { IfOk result (λ v. v.items ≡ written_over bytes.now at piece.now) }
{
    let from = at.min(bytes.len());
    let mut next = bytes[..from].to_vec(alloc)?;
    next.extend_from_slice(piece)?;
    if piece.len() < bytes.len() - from {
        next.extend_from_slice(&bytes[from + piece.len()..])?;
    }
    Ok(next)
}

/// The image behind a write over these places, of which these are the bytes that reads give.
fn loosen(
    alloc: Global,
    image: Image,
    left: &[u8],
    bytes: &[u8],
    at: usize,
    count: usize,
) -> Result<Vec<u8>, AllocError>
    ensures { IfOk result (λ v. v.items ≡ loosened image left.now bytes.now at count) }
{
    match image {
        Image::Old => left.to_vec(alloc),
        Image::New => bytes.to_vec(alloc),
        Image::Fill(byte) => {
            let piece = vec![in alloc; byte; count]?;
            overlay(alloc, left, at, &piece)
        }
    }
}

/// What reads give, and an image.
#[derive(Drop)]
pub struct Replayed {
    bytes: Vec<u8>,
    left: Vec<u8>,
}

/// The same behind one more call.
fn after(
    alloc: Global,
    image: Image,
    so_far: &Replayed,
    event: &Event,
) -> Result<Replayed, AllocError>
    ensures { (course : Course) → IfOk result (λ next. so_far.now.bytes.items ≡ course.now.bytes → so_far.now.left.items ≡ image_of image course.now →
        (next.bytes.items ≡ (step course event.now).now.bytes) × (next.left.items ≡ image_of image (step course event.now).now)) }
{
    match event {
        Event::Wrote { at, piece } => {
            let bytes = overlay(alloc, &so_far.bytes, *at, piece)?;
            let left = loosen(alloc, image, &so_far.left, &bytes, *at, piece.len())?;
            Ok(Replayed { bytes, left })
        }
        Event::Broke { at, count } => {
            let left = loosen(alloc, image, &so_far.left, &so_far.bytes, *at, *count)?;
            Ok(Replayed {
                bytes: so_far.bytes.to_vec(alloc)?,
                left,
            })
        }
        Event::Synced => Ok(Replayed {
            bytes: so_far.bytes.to_vec(alloc)?,
            left: so_far.bytes.to_vec(alloc)?,
        }),
    }
}

/// The image behind these calls.
pub fn replay(
    alloc: Global,
    image: Image,
    first: &[u8],
    events: &[Event],
) -> Result<Vec<u8>, AllocError>
    ensures { IfOk result (λ left. left.items ≡ image_of image (course_of first.now events.now).now) }
{
    let mut so_far = Replayed {
        bytes: first.to_vec(alloc)?,
        left: first.to_vec(alloc)?,
    };
    for event in events {
        so_far = after(alloc, image, &so_far, event)?;
    }
    Ok(so_far.left)
}
