// The calls of `exports` for programs in C or Rust: a static library with one symbol for each call, under the call's name.
// Kept: a C interface is a static library, on which no crate can stand, so the calls are in `exports` and their symbols here.
#![tactic(auto)]

ghost use Rattle.exports.specs.Numbers.{EncodesByNumber, MendsByNumber};

// Encodes a word of the row; 0, or the number of the refusal: 1 or 8.
#[unsafe(no_mangle)]
pub extern "C" fn rs16_encode_word(row: &mut [u8], depth: usize, word: usize) -> usize
    ensures { EncodesByNumber depth word row.old result row.new }
{
    exports::rs16_encode_word(row, depth, word)
}

// Mends a word of the row; how many octets it altered, or 100 and the number of the refusal: 101, 108 or 109.
#[unsafe(no_mangle)]
pub extern "C" fn rs16_mend_word(row: &mut [u8], depth: usize, word: usize) -> usize
    ensures { MendsByNumber depth word row.old result row.new }
{
    exports::rs16_mend_word(row, depth, word)
}
