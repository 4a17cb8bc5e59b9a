// Rows filled by the generator and encoded: digests of the words' syndromes before, and of the rows afterwards.
use crate::ROWS;
use crate::digest::Digest;
use crate::generator::Generator;
use code::Code;
use rs16::Rs16;

// What encoding rows came to.
// Kept: here and in `mending` a row and its depth come side by side: a struct of both would be taken apart at each call of `Code`.
#[derive(Clone, Copy)]
pub(crate) struct Encoding {
    pub syndromes: Digest,
    pub encoded: Digest,
    pub refused: usize,
}

impl Encoding {
    pub(crate) fn of_rows(row: &mut [u8], depth: usize) -> Encoding {
        let mut generator = Generator::from_seed(0x1ACF_FC1D);
        let mut syndromes = Digest::new();
        let mut encoded = Digest::new();
        let mut refused: usize = 0;
        for _ in 0..ROWS {
            generator.fill(row);
            feed_syndromes(&mut syndromes, row, depth);
            refused = refused.saturating_add(encode_row(row, depth));
            encoded.feed_octets(row);
        }
        Encoding {
            syndromes,
            encoded,
            refused,
        }
    }
}

// Feeds the syndromes of a row's words, each behind the number beside them: 0, or a refusal's.
fn feed_syndromes(digest: &mut Digest, row: &[u8], depth: usize) {
    for word in 0..depth {
        let (number, syndromes) = Rs16.syndromes(row, depth, word);
        digest.feed(number as u64);
        digest.feed_octets(&syndromes);
    }
}

// Encodes each word of a row, and answers how many were refused.
pub(crate) fn encode_row(row: &mut [u8], depth: usize) -> usize {
    let mut refused: usize = 0;
    for word in 0..depth {
        if Rs16.encode(row, depth, word).is_err() {
            refused = refused.saturating_add(1);
        }
    }
    refused
}
