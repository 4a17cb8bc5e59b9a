// Why a call on a word of a row is refused.
ghost use Rattle.std.specs.Prelude.{◌≡◌};
ghost use Rattle.code.specs.Refusal.{shape_number, mend_number};
ghost use Rattle.code.specs.declared.fault.MendFault.TheVariants.{Shape};

// There is no such word. The checks run in this order.
#[derive(Clone, Copy, Debug, PartialEq, Eq)]
pub enum ShapeFault {
    // the depth is not allowed
    Depth,
    // the row has not 255 * depth octets, or the word is not below depth
    Row,
}

impl ShapeFault {
    // The refusal's number: 1 or 8.
    // Kept: refusals are told by their numbers, which docs/CALLS.md lists.
    pub fn number(&self) -> usize
        ensures { result ≡ shape_number self.now }
    {
        match *self {
            ShapeFault::Depth => 1,
            ShapeFault::Row => 8,
        }
    }
}

// A word can't be mended. The checks run in this order.
#[derive(Clone, Copy, Debug, PartialEq, Eq)]
pub enum MendFault {
    // there is no such word
    Shape(ShapeFault),
    // no codeword is within reach
    Reach,
}

impl MendFault {
    // The refusal's number: 1, 8 or 9.
    // Kept: refusals are told by their numbers, which docs/CALLS.md lists.
    pub fn number(&self) -> usize
        ensures { result ≡ mend_number self.now }
    {
        match *self {
            MendFault::Shape(fault) => fault.number(),
            MendFault::Reach => 9,
        }
    }
}

impl From<ShapeFault> for MendFault {
    ghost from_gives = { λ fault r. r ≡ Shape fault };

    fn from(fault: ShapeFault) -> MendFault {
        MendFault::Shape(fault)
    }
}
