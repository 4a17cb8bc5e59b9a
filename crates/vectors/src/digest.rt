// Digests (FNV-1a, 64 digits).

const START: u64 = 0xCBF2_9CE4_8422_2325;

const FACTOR: u64 = 0x0000_0100_0000_01B3;

// The digest of all that it was fed.
#[derive(Clone, Copy)]
pub(crate) struct Digest(u64);

impl Digest {
    pub(crate) fn new() -> Digest {
        Digest(START)
    }

    pub(crate) fn feed(&mut self, number: u64) {
        self.0 = (self.0 ^ number).wrapping_mul(FACTOR);
    }

    pub(crate) fn feed_octets(&mut self, octets: &[u8]) {
        for octet in octets {
            self.feed(u64::from(*octet));
        }
    }

    pub(crate) fn value(self) -> u64 {
        self.0
    }
}
