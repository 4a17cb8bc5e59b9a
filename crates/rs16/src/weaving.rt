// A word taken out of a row, and octets put back: octet j of word w is row octet j * depth + w.
ghost use Rattle.std.specs.Prelude.{◌≡◌, ◌*◌, ◌<◌, ◌++◌, length, take, None, Some, OnOk, IfOk, IfErr};
ghost use Rattle.octets.specs.Words.{word_of, KeepsOthers};
ghost use Rattle.code.specs.Refusal.{shape_refusal};
ghost use Rattle.rs16.specs.Mending.{corrected, Corrects};

use crate::Correction;
use code::{ShapeFault, check_shape};
use std::array;

// A word that is woven into a row of `depth` words.
// Kept: the row stays beside it: as a field, lent to be read and lent to be written, it would take two types.
#[derive(Clone, Copy)]
pub(crate) struct Woven {
    depth: usize,
    word: usize,
    ghost among: { word < depth },
}

impl Woven {
    // The word, if the row has it.
    pub(crate) fn checked(row: &[u8], depth: usize, word: usize) -> Result<Woven, ShapeFault>
        ensures passed { OnOk result (shape_refusal depth word row.now ≡ None) }
        ensures same_depth { IfOk result (λ woven. woven.depth ≡ depth) }
        ensures same_word { IfOk result (λ woven. woven.word ≡ word) }
        ensures refused { IfErr result (λ fault. shape_refusal depth word row.now ≡ Some fault) }
    {
        check_shape(row, depth, word)?;
        Ok(Woven { depth, word })
    }

    // Its octets.
    pub(crate) fn gathered(self, row: &[u8]) -> [u8; 255]
        requires { length row.now ≡ 255 * self.depth }
        ensures { result ≡ word_of self.depth self.word row.now }
    {
        array::from_fn(|j| row[j * self.depth + self.word])
    }

    // Puts check octets behind its information octets.
    pub(crate) fn store_checks(self, row: &mut [u8], checks: [u8; 32])
        requires { length row.old ≡ 255 * self.depth }
        ensures word { word_of self.depth self.word row.new ≡ take 223 (word_of self.depth self.word row.old) ++ checks }
        ensures others { KeepsOthers self.depth self.word row.old row.new }
    {
        for (k, check) in checks.iter().enumerate() {
            row[(223 + k) * self.depth + self.word] = *check;
        }
    }

    // Makes corrections in it, and touches nothing else.
    pub(crate) fn store_corrections(self, row: &mut [u8], corrections: &[Correction])
        requires size { length row.old ≡ 255 * self.depth }
        requires corrects { Corrects (word_of self.depth self.word row.old) corrections.now }
        ensures word { word_of self.depth self.word row.new ≡ corrected corrections.now (word_of self.depth self.word row.old) }
        ensures others { KeepsOthers self.depth self.word row.old row.new }
    {
        for correction in corrections {
            row[correction.place as usize * self.depth + self.word] = correction.octet;
        }
    }
}
