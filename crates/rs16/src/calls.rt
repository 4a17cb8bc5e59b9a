// The calls of rs16 on a word of a row.
ghost use Rattle.std.specs.Prelude.{◌≡◌, ◌<◌};
ghost use Rattle.octets.specs.Counting.{tabulate};
ghost use Rattle.code.specs.Meaning.{SameMeaning};
ghost use Rattle.octets.specs.Words.{word_of};
ghost use Rattle.code.specs.Refusal.{shape_refusal};
ghost use Rattle.rs16.specs.Calls.{SyndromesFound, SyndromesGiven};
ghost use Rattle.rs16.specs.Codewords.{rs16, root, value};
ghost use Rattle.rs16.specs.Remainders;

use crate::division::{checks_of, residue_of};
use crate::field::{element_of, times_power};
use crate::searching::search_word;
use crate::weaving::Woven;
use code::{Code, MendFault, ShapeFault};
use std::array;

#[derive(Clone, Copy)]
pub struct Rs16;

impl Code for Rs16 {
    ghost meaning = { λ _. rs16 };

    ghost lawful = { λ x. Remainders.lawful };

    fn information(&self) -> usize {
        223
    }

    fn reach(&self) -> usize {
        16
    }

    fn encode(&self, row: &mut [u8], depth: usize, word: usize) -> Result<(), ShapeFault> {
        let woven = Woven::checked(row, depth, word)?;
        let octets = woven.gathered(row);
        let checks = checks_of(&octets[0..223]);
        woven.store_checks(row, checks);
        Ok(())
    }

    fn mend(&self, row: &mut [u8], depth: usize, word: usize) -> Result<usize, MendFault> {
        let woven = Woven::checked(row, depth, word)?;
        let corrections = search_word(woven.gathered(row)).ok_or(MendFault::Reach)?;
        woven.store_corrections(row, &corrections);
        Ok(corrections.len())
    }
}

// A theorem: what `Rs16` means is the code rs16, so that the contracts of `Code` say of it what rs16's definition says.
pub fn rs16_means_rs16(code: &Rs16)
    ensures { SameMeaning (⟦<Rs16 as Code>⟧.meaning code.now) rs16 }
{}

impl Rs16 {
    // The thirty-two syndromes of a word of the row. Refused as encode is.
    pub fn find_syndromes(
        &self,
        row: &[u8],
        depth: usize,
        word: usize,
    ) -> Result<[u8; 32], ShapeFault>
        ensures { SyndromesFound depth word row.now result }
    {
        let octets = Woven::checked(row, depth, word)?.gathered(row);
        Ok(syndromes_from(&residue_of(&octets)))
    }

    // The same as one value: the syndromes beside 0, or zeros beside the refusal's number.
    // Kept: a number, since that is how a caller who compares many words takes them.
    pub fn syndromes(&self, row: &[u8], depth: usize, word: usize) -> (usize, [u8; 32])
        ensures { SyndromesGiven (shape_refusal depth word row.now) (word_of depth word row.now) result.0 result.1 }
    {
        match self.find_syndromes(row, depth, word) {
            Ok(syndromes) => (0, syndromes),
            Err(fault) => (fault.number(), [0; 32]),
        }
    }
}

// The value of 32 line octets at root m.
fn value_at(octets: &[u8; 32], m: usize) -> u8
    requires { m < 32 }
    ensures { result ≡ value octets.now (root m) }
{
    let e = 11 * (112 + m) % 255;
    octets
        .iter()
        .fold(0, |sum, octet| times_power(sum, e) ^ element_of(*octet))
}

// The values of 32 line octets at the roots: for the remainder of a word, the word's syndromes.
pub(crate) fn syndromes_from(residue: &[u8; 32]) -> [u8; 32]
    ensures { result ≡ tabulate 32 (λ m. value residue.now (root m)) }
{
    array::from_fn(|m| value_at(residue, m))
}
