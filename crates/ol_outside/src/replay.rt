//! What a stop may leave of a disk in memory, made from the calls that it keeps.

ghost use Rattle.std.specs.Prelude.{◌≡◌, ◌<◌, ◌≤◌, ◌+◌, ◌*◌, ◌-◌, ◌^◌, ℕ, List, IfOk, length, take};
ghost use Rattle.ol_ports.specs.Disk.{Call};
ghost use Rattle.ol_outside.specs.Chunks.{lengths, HasPage, ChunksHold};
ghost use Rattle.ol_outside.specs.Images.{chosen, redone, torn_image, image_after, stopped_within, is_after_stop, SameImages};
ghost use Rattle.ol_outside.specs.KeptCalls.{call_of, kept_calls, calls_of, FitsIn, AllFitIn};

use crate::chunks::Chunks;
use crate::kept_calls::{Kept, Order};
use crate::{Choice, NoMemory};
use std::alloc::Global;

/// The bytes that a choice gives after the calls that are kept, of a disk that began with `base`.
pub(crate) fn image(
    alloc: Global,
    base: &Chunks,
    kept: &[Kept],
    choice: Choice,
) -> Result<Chunks, NoMemory>
    requires { AllFitIn base.now (kept_calls kept.now) }
    ensures image { IfOk result (λ image. ChunksHold image (chosen choice base.now (kept_calls kept.now))) }
    ensures lengths { IfOk result (λ image. lengths image ≡ lengths base.now) }
{
    let mut written = base.copy(alloc)?;
    let mut image = base.copy(alloc)?;
    replay(kept, &mut written, &mut image, choice);
    Ok(image)
}

/// How many of the calls that are kept have left something, or part of it, at a stop within the call of
/// this number.
pub(crate) fn stopped_at(kept: &[Kept], moment: u64) -> usize
    requires { moment < 2 ^ 64 - 1 }
    ensures within { result ≤ length kept.now }
    ensures same { (passed : ℕ) → moment ≤ length (calls_of kept.now passed) → SameImages (kept_calls (take result kept.now)) (stopped_within (calls_of kept.now passed) moment) }
{
    let mut number: u64 = 0;
    for (index, call) in kept.iter().enumerate() {
        number = number.saturating_add(call.passed).saturating_add(1);
        if is_after_stop(&call.order, number, moment) {
            return index;
        }
    }
    kept.len()
}

// Whether a stop within the call of number `moment` leaves nothing of this one: a write leaves something
// once it has begun, a sync only once it has ended.
fn is_after_stop(order: &Order, number: u64, moment: u64) -> bool
    ensures { result ≡ is_after_stop (call_of order.now) number moment }
{
    match order {
        Order::Write { .. } => moment < number,
        Order::Sync { .. } => moment <= number,
    }
}

// Does the calls to both: `written` has then all that was written, and `image` the choice.
fn replay(kept: &[Kept], written: &mut Chunks, image: &mut Chunks, choice: Choice)
    requires same { image.old ≡ written.old }
    requires fits { AllFitIn written.old (kept_calls kept.now) }
    ensures image { ChunksHold image.new (chosen choice written.old (kept_calls kept.now)) }
    ensures lengths { lengths image.new ≡ lengths image.old }
{
    for call in kept {
        redo(&call.order, written, image, choice);
    }
}

fn redo(order: &Order, written: &mut Chunks, image: &mut Chunks, choice: Choice)
    requires fits { FitsIn written.old (call_of order.now) }
    requires fits_image { FitsIn image.old (call_of order.now) }
    requires lengths { lengths image.old ≡ lengths written.old }
    ensures written { written.new ≡ redone (call_of order.now) written.old }
    ensures image { image.new ≡ image_after choice (call_of order.now) written.old image.old }
{
    match order {
        Order::Write {
            chunk,
            page,
            offset,
            bytes,
        } => {
            written.put(*chunk, *page, *offset, bytes);
            tear(image, *chunk, *page, *offset, bytes, choice);
        }
        Order::Sync { chunk } => image.take_chunk(*chunk as usize, written),
    }
}

// What a write that is not synced leaves by the choice.
fn tear(image: &mut Chunks, chunk: u8, page: u32, offset: u16, bytes: &[u8], choice: Choice)
    requires page { HasPage image.old chunk page }
    requires range { offset + length bytes.now ≤ 2048 }
    ensures { image.new ≡ torn_image choice image.old chunk (2048 * page + offset) bytes.now }
{
    match choice {
        Choice::Old => {}
        Choice::New => image.put(chunk, page, offset, bytes),
        Choice::Fill(byte) => image.fill(chunk, page, offset, bytes.len(), byte),
    }
}
