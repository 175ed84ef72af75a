// What a crash leaves of a unit.
ghost use Rattle.std.specs.Prelude.{◌≡◌, ◌≤◌, length, reverse, IfOk};
ghost use Rattle.std.specs.List.{concat};
ghost use Rattle.cms_journal.specs.Journal.{block_after, block_at_sync, first_events};
ghost use Rattle.cms_world.specs.Crash.{was_written, chosen_image, HoldsCrashImage};

use cms_journal::{Blocks, Event};
use std::alloc::{AllocError, Global};

// What a crash after some events may leave of a block.
#[derive(Clone, Copy)]
struct Left<'a> {
    // as at the last sync
    synced: &'a [u8],
    // as last written
    last: &'a [u8],
    // it was written since the sync
    written: bool,
}

// The events are the oldest first.
fn left_of<'a>(events: &'a [Event], unit: u8, block: usize, first: &'a [u8]) -> Left<'a>
    ensures synced { result.synced.now ≡ block_at_sync (reverse events.now) unit block first.now }
    ensures last { result.last.now ≡ block_after (reverse events.now) unit block first.now }
    ensures written { result.written ≡ was_written (reverse events.now) unit block }
{
    let mut synced = first;
    let mut last = first;
    let mut written = false;
    for event in events {
        match event {
            Event::Wrote(to, place, bytes) => {
                if *to == unit && *place as usize == block {
                    last = bytes.bytes();
                    written = true;
                }
            }
            Event::Synced(which) => {
                if *which == unit {
                    synced = last;
                    written = false;
                }
            }
            _ => {}
        }
    }
    Left {
        synced,
        last,
        written,
    }
}

// The blocks that a crash after these events leaves, joined: it looks through the events for each block.
fn image_of(
    alloc: Global,
    events: &[Event],
    unit: u8,
    start: &Blocks,
    choice: u64,
) -> Result<Vec<u8>, AllocError>
    ensures { IfOk result (λ image. image.items
        ≡ concat (chosen_image (reverse events.now) unit choice start.now)) }
{
    let mut image = Vec::new(alloc);
    let mut count: usize = 0;
    for place in 0..start.len() {
        let left = left_of(events, unit, place + 1, start.get(place));
        let picked = left.written && (choice >> (count % 64)) % 2 == 1;
        image.extend_from_slice(if picked { left.last } else { left.synced })?;
        if left.written {
            count += 1;
        }
    }
    Ok(image)
}

/// The same after the first of these events.
pub fn image_at(
    alloc: Global,
    events: &[Event],
    at: usize,
    unit: u8,
    start: &Blocks,
    choice: u64,
) -> Result<Vec<u8>, AllocError>
    requires { at ≤ length events.now }
    ensures chosen { IfOk result (λ image. image.items ≡ concat (chosen_image
        (first_events at (reverse events.now)) unit choice start.now)) }
    ensures crash { IfOk result (λ image.
        HoldsCrashImage (first_events at (reverse events.now)) unit start.now image.items) }
{
    image_of(alloc, &events[..at], unit, start, choice)
}
