//! The size of a batch in a queue.
use crate::batch::Batch;
use sub_queue::Measured;

/// A batch takes up as much room as it has frames, and 1 where it has none. O(1).
impl Measured for Batch {
    ghost use Rattle.frame_batch.specs.Batches.{room_of};

    ghost measure = { room_of };

    fn size(&self) -> usize {
        self.len().max(1)
    }
}
