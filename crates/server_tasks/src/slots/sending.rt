//! What sessions ask of the slots.
ghost use Rattle.std.specs.Prelude.{◌≡◌, ◌&&◌, true, false, None, Some, nat_lt, slice_get};
ghost use Rattle.server_tasks.specs.Becomes.{OneBecomes};
ghost use Rattle.server_tasks.specs.Clients.{took, wrote};
ghost use Rattle.server_tasks.specs.GivingWay.{line_over};
ghost use Rattle.server_tasks.specs.Named.{SameIndex};

use super::{Receipt, Slot, SlotEvent, Slots};
use crate::amount::Amount;
use crate::sender::Throttle;

impl Slots {
    /// Answers whether the session of this slot may hand over so many bytes now, as `lets_send` does, and gives the word of it.
    pub(crate) fn may_send(
        &mut self,
        slot: usize,
        bytes: u64,
        said: Amount,
        throttle: &mut Throttle,
    ) -> (Receipt, bool)
        ensures word { result.0 ≡ SlotEvent.Asked slot bytes result.1 }
        ensures told { result.1 ≡ false → self.new.ticker ≡ None }
        ensures behind { result.1 ≡ false → self.new.sight.is_behind ≡ true }
        ensures on_the_way { throttle.new.is_on_the_way ≡ (result.1 && nat_lt 4_096 bytes) }
        ensures flagged { result.1 ≡ false → (was : Slot) → slice_get self.new.slots.items slot ≡ Some was → was.is_held ≡ true }
        ensures bells { self.new.bells ≡ self.old.bells }
        ensures index { SameIndex self.old self.new }
    {
        let may_send = self.lets_send(slot, bytes, said, throttle);
        let receipt = Receipt {
            deed: SlotEvent::Asked(slot, bytes, may_send),
        };
        (receipt, may_send)
    }

    /// Notes that the last line of the session of this slot was said, and gives the word of it.
    pub(crate) fn end_line_by(&mut self, slot: usize) -> Receipt
        ensures word { result ≡ SlotEvent.LineEnded slot }
        ensures over { OneBecomes line_over slot self.old.slots.items self.new.slots.items }
        ensures bells { self.new.bells ≡ self.old.bells }
        ensures index { SameIndex self.old self.new }
    {
        self.end_line(slot);
        Receipt {
            deed: SlotEvent::LineEnded(slot),
        }
    }

    /// Counts bytes that the socket of this slot took, which had been full, and gives the word of it.
    pub(crate) fn count_written_by(&mut self, slot: usize, bytes: u64) -> Receipt
        ensures word { result ≡ SlotEvent.Wrote slot bytes }
        ensures written { OneBecomes (wrote bytes) slot self.old.slots.items self.new.slots.items }
        ensures bells { self.new.bells ≡ self.old.bells }
        ensures index { SameIndex self.old self.new }
    {
        self.count_written(slot, bytes);
        Receipt {
            deed: SlotEvent::Wrote(slot, bytes),
        }
    }

    /// Counts what was taken for the session of this slot, as `note_taken` does, and gives the word of it.
    pub(crate) fn note_taken_by(
        &mut self,
        slot: usize,
        said: Amount,
        taken: Amount,
        has_more: bool,
    ) -> Receipt
        ensures word { result ≡ SlotEvent.Took slot said taken has_more }
        ensures taken { OneBecomes (took said taken has_more) slot self.old.slots.items self.new.slots.items }
        ensures bells { self.new.bells ≡ self.old.bells }
        ensures index { SameIndex self.old self.new }
    {
        self.note_taken(slot, said, taken, has_more);
        Receipt {
            deed: SlotEvent::Took(slot, said, taken, has_more),
        }
    }

    /// Answers whether somebody was seen to be behind, and gives the word of it.
    pub(crate) fn look_behind(&self) -> (Receipt, bool)
        ensures word { result.0 ≡ SlotEvent.LookedBehind result.1 }
        ensures behind { result.1 ≡ self.now.sight.is_behind }
    {
        let is_behind = self.is_behind();
        let receipt = Receipt {
            deed: SlotEvent::LookedBehind(is_behind),
        };
        (receipt, is_behind)
    }
}
