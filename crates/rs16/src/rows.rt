// Thirty-two octets held as four numbers of 64 digits, so that a step of the division moves and adds them together.
ghost use Rattle.std.specs.Prelude.{◌≡◌, ◌/◌, ◌<◌, bit_xor};
ghost use Rattle.rs16.specs.Division.{divide_step};

use crate::multiples::MULTIPLES;

// Octets 0 to 7 in `a`, the first the least significant, 8 to 15 in `b`, and so on.
// Kept: four numbers by name, since `shifted` takes digits of each from the next, which an array would say by index. A cut to an octet
// is `(x & 255) as u8`, the language's form for it.
#[derive(Clone, Copy, Default)]
pub(crate) struct Row {
    pub a: u64,
    pub b: u64,
    pub c: u64,
    pub d: u64,
}

impl Row {
    ghost use Rattle.rs16.specs.Rows.{octets_of, packed, wide, multiples, multiples_part};

    // A line octet times eight of the generator's coefficients, from 8 * q on.
    fn multiples_part(octet: u8, q: usize) -> u64
        requires { q < 4 }
        ensures { result ≡ multiples_part octet q }
    {
        MULTIPLES[4 * octet as usize + q]
    }

    // A line octet times each of the generator's coefficients.
    fn multiples_of(octet: u8) -> Row
        ensures { wide result ≡ packed (multiples octet) }
    {
        Row {
            a: Row::multiples_part(octet, 0),
            b: Row::multiples_part(octet, 1),
            c: Row::multiples_part(octet, 2),
            d: Row::multiples_part(octet, 3),
        }
    }

    // Each octet one place to the front; the first goes.
    fn shifted(self) -> Row
        ensures { wide result ≡ wide self / 256 }
    {
        Row {
            a: (self.b & 255) << 56 | self.a >> 8,
            b: (self.c & 255) << 56 | self.b >> 8,
            c: (self.d & 255) << 56 | self.c >> 8,
            d: self.d >> 8,
        }
    }

    // The sum of two rows.
    fn plus(self, other: Row) -> Row
        ensures { wide result ≡ bit_xor (wide self) (wide other) }
    {
        Row {
            a: self.a ^ other.a,
            b: self.b ^ other.b,
            c: self.c ^ other.c,
            d: self.d ^ other.d,
        }
    }

    // The remainder after one more octet.
    pub(crate) fn divided(self, octet: u8) -> Row
        ensures { octets_of result ≡ divide_step octet (octets_of self) }
    {
        let first = (self.a & 255) as u8;
        self.shifted().plus(Row::multiples_of(first ^ octet))
    }

    // The octets.
    pub(crate) fn octets(self) -> [u8; 32]
        ensures { result ≡ octets_of self }
    {
        let mut octets = [0; 32];
        octets[..8].copy_from_slice(&self.a.to_le_bytes());
        octets[8..16].copy_from_slice(&self.b.to_le_bytes());
        octets[16..24].copy_from_slice(&self.c.to_le_bytes());
        octets[24..].copy_from_slice(&self.d.to_le_bytes());
        octets
    }
}
