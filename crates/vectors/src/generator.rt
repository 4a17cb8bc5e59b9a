// A small generator (xorshift, 32 digits).
// Kept: the tests of `link` have their own generator and digest. A crate for both would be a third that those tests stand on,
// for twenty lines.

#[derive(Drop)]
pub(crate) struct Generator(u32);

impl Generator {
    pub(crate) fn from_seed(seed: u32) -> Generator {
        Generator(seed)
    }

    // The next number.
    pub(crate) fn next(&mut self) -> u32 {
        let a = self.0 ^ (self.0 << 13);
        let b = a ^ (a >> 17);
        self.0 = b ^ (b << 5);
        self.0
    }

    // The next number's first octet.
    pub(crate) fn octet(&mut self) -> u8 {
        (self.next() >> 24) as u8
    }

    pub(crate) fn fill(&mut self, row: &mut [u8]) {
        for octet in row.iter_mut() {
            *octet = self.octet();
        }
    }
}
