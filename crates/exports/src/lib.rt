// Calls with plain numbers for answers, for programs in C or Rust, for comparisons and measurements: rs16 on a word of a row. `exports_c`
// makes symbols of them.
#![tactic(auto)]

ghost use Rattle.exports.specs.Numbers.{EncodesByNumber, MendsByNumber};

use code::Code;
use rs16::Rs16;

// Kept: these are a C interface, so numbers stand for answers and refusals.

// Encodes a word of the row; 0, or the number of the refusal: 1 or 8.
pub fn rs16_encode_word(row: &mut [u8], depth: usize, word: usize) -> usize
    ensures { EncodesByNumber depth word row.old result row.new }
{
    match Rs16.encode(row, depth, word) {
        Ok(()) => 0,
        Err(fault) => fault.number(),
    }
}

// Mends a word of the row; how many octets it altered, or 100 and the number of the refusal: 101, 108 or 109.
pub fn rs16_mend_word(row: &mut [u8], depth: usize, word: usize) -> usize
    ensures { MendsByNumber depth word row.old result row.new }
{
    match Rs16.mend(row, depth, word) {
        Ok(altered) => altered,
        Err(fault) => 100 + fault.number(),
    }
}
