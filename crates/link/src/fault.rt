// Why a call of an end is refused.
ghost use Rattle.std.specs.Prelude.{◌≡◌};
ghost use Rattle.link.specs.Refusal.{making_number, put_number, draw_number};

// An end can't be made.
// Kept: an enum of refusals like the others, of which making an end has one.
#[derive(Clone, Copy, Debug, PartialEq, Eq)]
pub enum MakingFault {
    // the mapping was made for another depth or other rows
    Mapping,
}

impl MakingFault {
    // The refusal's number: 10.
    // Kept: refusals are told by their numbers, which docs/CALLS.md lists.
    pub fn number(&self) -> usize
        ensures { result ≡ making_number self.now }
    {
        match *self {
            MakingFault::Mapping => 10,
        }
    }
}

// A frame is not put. The checks run in this order.
#[derive(Clone, Copy, Debug, PartialEq, Eq)]
pub enum PutFault {
    // the memory has not as many octets as a block
    Memory,
    // the frame has not as many octets as the information of a row
    Frame,
    // the block is full and not wholly drawn
    Full,
}

impl PutFault {
    // The refusal's number: 11, 12 or 13.
    // Kept: refusals are told by their numbers, which docs/CALLS.md lists.
    pub fn number(&self) -> usize
        ensures { result ≡ put_number self.now }
    {
        match *self {
            PutFault::Memory => 11,
            PutFault::Frame => 12,
            PutFault::Full => 13,
        }
    }
}

// No octet is drawn. The checks run in this order.
#[derive(Clone, Copy, Debug, PartialEq, Eq)]
pub enum DrawFault {
    // the memory has not as many octets as a block
    Memory,
    // fewer frames are put than the block has rows
    Unfilled,
}

impl DrawFault {
    // The refusal's number: 11 or 14.
    // Kept: refusals are told by their numbers, which docs/CALLS.md lists.
    pub fn number(&self) -> usize
        ensures { result ≡ draw_number self.now }
    {
        match *self {
            DrawFault::Memory => 11,
            DrawFault::Unfilled => 14,
        }
    }
}
