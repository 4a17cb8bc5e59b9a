// Why a mapping refuses.
ghost use Rattle.std.specs.Prelude.{◌≡◌};
ghost use Rattle.mapping.specs.Refusal.{number};

// What is not allowed: the step of a stepped mapping, a place not below the block's end, a reach above the
// largest, or a memory that is not of the block's length.
#[derive(Clone, Copy, Debug, PartialEq, Eq)]
pub enum MappingFault {
    Step,
    Place,
    Reach,
    Memory,
}

impl MappingFault {
    // The refusal's number: 6, 7 or 11.
    // Kept: refusals are told by their numbers, which docs/CALLS.md lists.
    pub fn number(&self) -> usize
        ensures { result ≡ number self.now }
    {
        match *self {
            MappingFault::Step => 6,
            MappingFault::Place => 7,
            MappingFault::Reach => 7,
            MappingFault::Memory => 11,
        }
    }
}
