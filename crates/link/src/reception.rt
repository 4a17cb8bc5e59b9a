// Why a call of the receiver is refused, and what next answers of a row.
ghost use Rattle.std.specs.Prelude.{◌≡◌};
ghost use Rattle.link.specs.ReceiverRefusal.{feed_number, next_number, show_number};

use crate::RowFault;

// No octet is taken. The checks run in this order.
#[derive(Clone, Copy, Debug, PartialEq, Eq)]
pub enum FeedFault {
    // the memory has not as many octets as a block
    Memory,
    // frames wait
    Waiting,
}

impl FeedFault {
    // The refusal's number: 11 or 15.
    // Kept: refusals are told by their numbers, which docs/CALLS.md lists.
    pub fn number(&self) -> usize
        ensures { result ≡ feed_number self.now }
    {
        match *self {
            FeedFault::Memory => 11,
            FeedFault::Waiting => 15,
        }
    }
}

// No row is mended. The checks run in this order.
#[derive(Clone, Copy, Debug, PartialEq, Eq)]
pub enum NextFault {
    // the memory has not as many octets as a block
    Memory,
    // no frame waits
    NoneWaits,
}

impl NextFault {
    // The refusal's number: 11 or 16.
    // Kept: refusals are told by their numbers, which docs/CALLS.md lists.
    pub fn number(&self) -> usize
        ensures { result ≡ next_number self.now }
    {
        match *self {
            NextFault::Memory => 11,
            NextFault::NoneWaits => 16,
        }
    }
}

// No frame is shown. The checks run in this order.
#[derive(Clone, Copy, Debug, PartialEq, Eq)]
pub enum ShowFault {
    // the memory has not as many octets as a block
    Memory,
    // the latest accepted call of feed and next was not next
    NotNext,
}

impl ShowFault {
    // The refusal's number: 11 or 17.
    // Kept: refusals are told by their numbers, which docs/CALLS.md lists.
    pub fn number(&self) -> usize
        ensures { result ≡ show_number self.now }
    {
        match *self {
            ShowFault::Memory => 11,
            ShowFault::NotNext => 17,
        }
    }
}

// A row of the block is not mended: which, and why.
#[derive(Clone, Copy, Debug, PartialEq, Eq)]
pub struct BlockFault {
    pub row: usize,
    pub fault: RowFault,
}

// A row of the block: its number, the octets altered, the gap (1 on the first row of the first block after a lock, else 0),
// and whether it is valid: if not, the first word that is not mended.
#[derive(Clone, Copy, Debug, PartialEq, Eq)]
pub struct NextAnswer {
    pub row: usize,
    pub altered: usize,
    pub gap: usize,
    pub valid: Result<(), BlockFault>,
}
