// The codes that a link may be built with.
ghost use Rattle.std.specs.Prelude.{◌≡◌};
ghost use Rattle.promise.specs.Kinds.{code_of};

use code::{Bare, Code};
use rs16::Rs16;

// The codes.
#[derive(Clone, Copy, Debug, PartialEq, Eq)]
pub enum CodeName {
    Rs16,
    Bare,
}

impl CodeName {
    // The information octets of a word.
    pub fn information(&self) -> usize
        ensures { result ≡ (code_of self.now).information }
    {
        match *self {
            CodeName::Rs16 => Rs16.information(),
            CodeName::Bare => Bare.information(),
        }
    }

    // How many altered octets of a word the code mends.
    pub fn reach(&self) -> usize
        ensures { result ≡ (code_of self.now).reach }
    {
        match *self {
            CodeName::Rs16 => Rs16.reach(),
            CodeName::Bare => Bare.reach(),
        }
    }
}
