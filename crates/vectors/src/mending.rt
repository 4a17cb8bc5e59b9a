// Words altered by the generator and mended: digests of the answers and of the rows, to be compared with another decoder's.
use crate::ROWS;
use crate::digest::Digest;
use crate::encoding::encode_row;
use crate::generator::Generator;
use code::Code;
use rs16::Rs16;

// How the places of the octets that are altered lie in a word.
#[derive(Clone, Copy)]
enum Places {
    Anywhere,
    // in steps of so many octets
    Steps(u8),
}

impl Places {
    // By the first two digits of a number: anywhere, in a burst, and in steps of 17 and of 16.
    fn of(number: u32) -> Places {
        match number >> 30 {
            0 => Places::Anywhere,
            1 => Places::Steps(1),
            2 => Places::Steps(17),
            _ => Places::Steps(16),
        }
    }

    // The place of the octet that is altered as number i, by the generator's number for it.
    fn place(self, start: u8, i: u8, number: u32) -> usize {
        match self {
            Places::Anywhere => (number >> 8) as usize % 255,
            Places::Steps(step) => (usize::from(start) + usize::from(i) * usize::from(step)) % 255,
        }
    }
}

// Alters up to 20 octets of a word. It takes a number for how their places lie, one for how many (without its last eight digits,
// modulo 21), one for the start (the same, modulo 255), and one for each octet, whose first eight digits are added to it.
fn alter_word(row: &mut [u8], depth: usize, word: usize, generator: &mut Generator) {
    let places = Places::of(generator.next());
    let many = ((generator.next() >> 8) % 21) as u8;
    let start = ((generator.next() >> 8) % 255) as u8;
    for i in 0..many {
        let number = generator.next();
        let place = places.place(start, i, number);
        // The sums wrap, since nothing here bounds the depth.
        if let Some(octet) = row.get_mut(place.wrapping_mul(depth).wrapping_add(word)) {
            *octet ^= (number >> 24) as u8;
        }
    }
}

// What mending rows came to.
#[derive(Clone, Copy)]
pub(crate) struct Mending {
    // the digest of the answers: how many octets were put right, or 256 and the refusal's number
    pub answers: Digest,
    // the digest of the rows afterwards
    pub rows: Digest,
    pub mended: usize,
    pub refused: usize,
}

impl Mending {
    // Rows filled by the generator, encoded but for each eighth one, altered word by word, and mended.
    pub(crate) fn of_rows(row: &mut [u8], depth: usize) -> Mending {
        let mut generator = Generator::from_seed(0x352E_F853);
        let mut mending = Mending {
            answers: Digest::new(),
            rows: Digest::new(),
            mended: 0,
            refused: 0,
        };
        for i in 0..ROWS {
            generator.fill(row);
            if i % 8 != 7 {
                encode_row(row, depth);
            }
            for word in 0..depth {
                alter_word(row, depth, word, &mut generator);
            }
            mending.add(row, depth);
        }
        mending
    }

    // Mends each word of a row.
    fn add(&mut self, row: &mut [u8], depth: usize) {
        for word in 0..depth {
            match Rs16.mend(row, depth, word) {
                Ok(count) => {
                    self.mended = self.mended.saturating_add(1);
                    self.answers.feed(count as u64);
                }
                Err(fault) => {
                    self.refused = self.refused.saturating_add(1);
                    // Kept: 256 and the number, since the stored output is of these numbers.
                    self.answers.feed(256 + fault.number() as u64);
                }
            }
        }
        self.rows.feed_octets(row);
    }
}
