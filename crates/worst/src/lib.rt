// The worst list: the greatest of the records noted, each once, greatest first, over slots that the caller supplies.
#![tactic(auto)]

ghost use Rattle.std.specs.Prelude.{◌≤◌, length};

mod insertion;
mod kinds;
mod list;
#[cfg(test)]
mod tests;
mod theorems;

pub use kinds::{MarkerRecord, RowRecord};
pub use theorems::{lists_agree, orders_stand};

// A list in the first `used` of the slots, greatest first. What the slots behind it hold is of no account.
// Kept: a number beside the slots, which are the caller's, since no heap is used; and a walk from the front in place of a binary search,
// since the type does not say that the records descend: that would ask an order of every T.
#[derive(Drop)]
pub struct WorstList<'a, T> {
    slots: &'a mut [T],
    used: usize,
    ghost used_within: { used ≤ length slots.now },
}
