// Codes: what each keeps, whatever it is, and the code bare.
// A code treats words of 255 octets, `depth` of them woven into a row: octet j of word w is row octet j * depth + w.
#![tactic(auto)]

ghost use Rattle.std.specs.Prelude.{◌≡◌};
ghost use Rattle.code.specs.Meaning.{CodeMeaning, CodeLaws};
ghost use Rattle.code.specs.Calls.{Encodes, Mends};

mod bare;
mod fault;
mod shape;

pub use bare::{Bare, bare_means_bare};
pub use fault::{MendFault, ShapeFault};
pub use shape::check_shape;

// A code. It never changes, and each call on a word keeps every other octet of the row.
pub trait Code {
    // The codewords, how many octets of a word are information, and how many altered ones are put right.
    ghost meaning: { Self → CodeMeaning };

    // The information octets of a word.
    fn information(&self) -> usize
        ensures { result ≡ (meaning self.now).information };

    // How many altered octets of a word are put right, whichever they are.
    fn reach(&self) -> usize
        ensures { result ≡ (meaning self.now).reach };

    // Kept: row, depth and word stay apart in these calls: a type that holds them checked would ask callers for the checks first.

    // Makes a word of the row a codeword by the octets behind its information.
    // Refused, in this order: 1 the depth is not allowed; 8 the row has not 255 * depth octets, or the word is not below depth.
    fn encode(&self, row: &mut [u8], depth: usize, word: usize) -> Result<(), ShapeFault>
        ensures { Encodes (meaning self.now) depth word row.old result row.new };

    // Replaces a word of the row by the codeword within reach, and answers how many octets it altered.
    // Refused as encode is, and then: 9 no codeword is within reach.
    fn mend(&self, row: &mut [u8], depth: usize, word: usize) -> Result<usize, MendFault>
        ensures { Mends (meaning self.now) depth word row.old result row.new };

    ghost lawful: { (code : Self) → CodeLaws (meaning code) };
}
