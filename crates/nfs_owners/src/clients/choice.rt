//! The choice of a newcomer's number.

ghost use Rattle.std.specs.Prelude.{◌≡◌, ◌<◌, IfSome, IsTrue, find};
ghost use Rattle.std.specs.Option.{option_copied};
ghost use Rattle.nfs_owners.specs.Choice.{IsNextNumber, MarksSlots, can_be_given, choice, chosen_slot, client_slots, has_number_left, is_in_use, is_live_slot, may_give_way, next_number, without_replaced};
ghost use Rattle.nfs_owners.specs.Registry.{without_id};
ghost use Rattle.nfs_owners.specs.Slots.{slot_of};

use super::Clients;
use crate::ClientRecord;
use crate::slots::{GENERATIONS, SLOTS};

/// For each slot, whether it has what is asked of it.
type SlotMarks = [bool; SLOTS as usize];

impl Clients {
    /// The number for a newcomer with this id, if there is one: the next one of the least slot that no record has, and
    /// else of the slot of the oldest unconfirmed record that may give way. The id's own unconfirmed record, which the
    /// newcomer's replaces, counts as gone. It takes no memory.
    pub(crate) fn choose(&self, id: &[u8]) -> Option<u32>
        ensures number { result ≡ choice id.now self.now.registry }
        ensures next { IfSome result (λ number. IsNextNumber number self.now.registry) }
        ensures left { IfSome result (λ number.
            IsTrue (has_number_left self.now.registry (slot_of number))) }
    {
        // A law, for the proof alone: each record has the last number of its slot.
        self.records_are_apart();
        let slot = self.slot_for(id)?;
        Some(self.next_number(slot))
    }

    // The slot for a newcomer with this id, if there is one.
    fn slot_for(&self, id: &[u8]) -> Option<u32>
        ensures { result ≡ chosen_slot id.now self.now.registry }
    {
        let live = self.live_slots();
        let used = self.used_slots(&live, id);
        if let Some(slot) = self.free_slot(&used) {
            return Some(slot);
        }
        let oldest = self.oldest_to_give_way(&live, id)?;
        Some(oldest.slot())
    }

    // In which slots a client is live.
    fn live_slots(&self) -> SlotMarks
        ensures { MarksSlots (is_live_slot self.now.registry) result }
    {
        let mut live = [false; SLOTS as usize];
        for (_, record) in self.confirmed.iter() {
            live[record.slot() as usize] = true;
        }
        live
    }

    // Which slots records have, but for the id's own unconfirmed record.
    fn used_slots(&self, live: &SlotMarks, id: &[u8]) -> SlotMarks
        requires { MarksSlots (is_live_slot self.now.registry) live.now }
        ensures { MarksSlots (is_in_use (without_replaced id.now self.now.registry)) result }
    {
        let mut used = *live;
        for (_, record) in self.unconfirmed.iter() {
            if !record.is_of(id) {
                used[record.slot() as usize] = true;
            }
        }
        used
    }

    // The least slot without a mark that has a number left.
    fn free_slot(&self, used: &SlotMarks) -> Option<u32>
        ensures { result ≡ find (can_be_given used.now self.now.registry) client_slots }
    {
        (1..SLOTS).find(|slot| self.can_be_given(used, *slot))
    }

    // The oldest unconfirmed record that may give way, but for the id's own one.
    fn oldest_to_give_way(&self, live: &SlotMarks, id: &[u8]) -> Option<&ClientRecord>
        requires { MarksSlots (is_live_slot self.now.registry) live.now }
        ensures { option_copied result ≡ find (may_give_way self.now.registry)
            (without_id id.now self.now.registry.unconfirmed) }
    {
        for (_, record) in self.unconfirmed.iter() {
            if !record.is_of(id) && self.can_be_given(live, record.slot()) {
                return Some(record);
            }
        }
        None
    }

    // Whether the slot has no mark, and a number left.
    fn can_be_given(&self, taken: &SlotMarks, slot: u32) -> bool
        requires { slot < SLOTS }
        ensures { result ≡ can_be_given taken.now self.now.registry slot }
    {
        !taken[slot as usize] && self.given[slot as usize] < GENERATIONS
    }

    // The first number of the slot that wasn't given yet.
    fn next_number(&self, slot: u32) -> u32
        requires slot { slot < SLOTS }
        requires left { IsTrue (has_number_left self.now.registry slot) }
        ensures { result ≡ next_number self.now.registry slot }
    {
        self.given[slot as usize] * SLOTS + slot
    }
}
