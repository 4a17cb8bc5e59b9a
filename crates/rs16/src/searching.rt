// The search for a word's altered octets.
ghost use Rattle.std.specs.Prelude.{◌≡◌, ◌≤◌, ◌↔◌, IsTrue, EachIndex, length, slice_index};
ghost use Rattle.octets.specs.Words.{word_length, max_reach};
ghost use Rattle.rs16.specs.Mending.{zero_at, chosen, changed, corrected, Corrects};
ghost use Rattle.rs16.specs.Searching.{Searches};

use crate::calls::syndromes_from;
use crate::coefficients::Polynomial;
use crate::division::residue_of;
use crate::places::{change_at, evaluator_polynomial, locator_polynomial, values_of};
use crate::windows::solution;
use crate::{Correction, Corrections};

// Whether a remainder is 0.
fn all_zero(octets: &[u8; 32]) -> bool
    ensures { IsTrue result ↔ EachIndex octets.now (λ k. slice_index octets.now k ≡ 0) }
{
    octets.iter().all(|octet| *octet == 0)
}

// The corrections at the powers whose value is 0; one that would change nothing is left out.
fn corrections_at(values: &[u8; 255], p: &Polynomial, o: &[u8; 16], word: &[u8; 255]) -> Corrections
    requires { length (chosen (zero_at values.now) word_length) ≤ max_reach }
    ensures right { Corrects word.now result }
    ensures made { corrected result word.now ≡ changed (zero_at values.now) p.now o.now word.now }
    ensures few { length result ≤ max_reach }
{
    let mut corrections = Corrections::new();
    for (place, octet) in word.iter().enumerate() {
        if values[254 - place] == 0 {
            let change = change_at(p, o, 254 - place);
            if change != 0 {
                corrections.push(Correction {
                    place: place as u8,
                    octet: *octet ^ change,
                });
            }
        }
    }
    corrections
}

// The word with the corrections made.
fn corrected_word(word: [u8; 255], corrections: &[Correction]) -> [u8; 255]
    requires { Corrects word corrections.now }
    ensures { result ≡ corrected corrections.now word }
{
    let mut octets = word;
    for correction in corrections {
        octets[correction.place as usize] = correction.octet;
    }
    octets
}

// The corrections that make a word the codeword within reach, if there is one. A codeword needs none, and takes no more than its
// remainder to see.
pub fn search_word(word: [u8; 255]) -> Option<Corrections>
    ensures { Searches word result }
{
    let residue = residue_of(&word);
    if all_zero(&residue) {
        return Some(Corrections::new());
    }
    let syndromes = syndromes_from(&residue);
    let values = values_of(&solution(&syndromes));
    let locator = locator_polynomial(&values);
    let evaluator = evaluator_polynomial(&locator, &syndromes);
    let corrections = corrections_at(&values, &locator, &evaluator, &word);
    let codeword = corrected_word(word, &corrections);
    all_zero(&residue_of(&codeword)).then_some(corrections)
}
