// The sender run: whole blocks drawn in pieces of awkward sizes, against the figures of compare/line.py.
use crate::Sender;
use code::Bare;
use mapping::{Interleaved, Mapping, Randomized};
use settings::Settings;
use std::process::Abort;
use std::test::Fail;

mod receiver;
mod ride;

// Kept: `vectors` has a digest and a generator of its own. One crate for both would be twenty lines, with contracts of their
// own, for two users.

// A digest's start and factor (FNV-1a, 64 digits).
const START: u64 = 0xCBF2_9CE4_8422_2325;

const FACTOR: u64 = 0x0000_0100_0000_01B3;

// The digest of some octets behind others.
fn digest(before: u64, octets: &[u8]) -> u64 {
    octets.iter().fold(before, |sum, octet| {
        (sum ^ u64::from(*octet)).wrapping_mul(FACTOR)
    })
}

// A generator of numbers (xorshift, 32 digits), by its latest.
#[derive(Clone, Copy)]
struct Generator(u32);

impl Generator {
    fn next(&mut self) -> u32 {
        let a = self.0 ^ (self.0 << 13);
        let b = a ^ (a >> 17);
        self.0 = b ^ (b << 5);
        self.0
    }

    // The first 24 digits of the next number.
    fn draw(&mut self) -> usize {
        (self.next() >> 8) as usize
    }

    // Fills octets with the first digits of the next numbers.
    fn fill(&mut self, octets: &mut [u8]) {
        for octet in octets {
            *octet = (self.next() >> 24) as u8;
        }
    }
}

// What was drawn: the digest of the octets, how many, and the draws refused.
#[derive(Clone, Copy, Debug, PartialEq, Eq)]
struct Figures {
    digest: u64,
    octets: usize,
    refused: usize,
}

impl Figures {
    // Draws a piece.
    fn draw<M: Mapping>(&mut self, sender: &mut Sender<Bare, M>, memory: &[u8], out: &mut [u8]) {
        // No contract bounds these sums, so they are wrapping ones; they never wrap.
        match sender.draw(memory, out) {
            Ok(taken) => {
                self.digest = digest(self.digest, &out[..taken]);
                self.octets = self.octets.wrapping_add(taken);
            }
            Err(_) => self.refused = self.refused.wrapping_add(1),
        }
    }

    // Draws in pieces of changing sizes, past the block's end.
    fn draw_block<M: Mapping>(&mut self, sender: &mut Sender<Bare, M>, memory: &[u8]) {
        for turn in 0..400 {
            let mut out = [0; 127];
            let size = (turn * 41 + 1) % 127;
            self.draw(sender, memory, &mut out[..size]);
        }
    }
}

// Puts as many frames as the block has rows, and sees that one more is refused.
fn put_block<M: Mapping>(
    rt: &impl Abort,
    sender: &mut Sender<Bare, M>,
    settings: &Settings,
    memory: &mut [u8],
    generator: &mut Generator,
) -> Result<(), Fail> {
    let width = settings.row_length();
    assert!(rt; width <= 2040);
    let mut octets = [0; 2040];
    let frame = &mut octets[..width];
    for row in 0..settings.rows() {
        generator.fill(frame);
        assert_eq!(rt; sender.put(memory, frame)?, row);
    }
    assert!(rt; sender.put(memory, frame).is_err());
    Ok(())
}

// What a sender with this mapping sends of two blocks.
fn drawn<M: Mapping + Drop>(
    rt: &impl Abort,
    settings: Settings,
    mapping: M,
) -> Result<Figures, Fail> {
    let block = settings.block_length();
    assert!(rt; block <= 6120);
    let mut octets = [0; 6120];
    let memory = &mut octets[..block];
    let mut sender = Sender::new(settings, Bare, mapping)?;
    let mut generator = Generator(0x1ACF_FC1D);
    let mut figures = Figures {
        digest: START,
        octets: 0,
        refused: 0,
    };
    for _ in 0..2 {
        put_block(rt, &mut sender, &settings, memory, &mut generator)?;
        figures.draw_block(&mut sender, memory);
    }
    Ok(figures)
}

#[test]
fn a_block_of_two_rows(rt: HostRuntime) -> Result<(), Fail> {
    let settings = Settings::new(1, 2, 5, 1, 1)?;
    let found = drawn(&rt, settings, Interleaved::block(settings))?;
    assert_eq!(rt;
        found,
        Figures {
            digest: 0xA6A2_E5F8_A9BD_D3ED,
            octets: 1048,
            refused: 782,
        }
    );
    Ok(())
}

#[test]
fn a_randomized_block(rt: HostRuntime) -> Result<(), Fail> {
    let settings = Settings::new(2, 12, 17, 3, 1)?;
    let found = drawn(
        &rt,
        settings,
        Randomized::over(Interleaved::block(settings)),
    )?;
    assert_eq!(rt;
        found,
        Figures {
            digest: 0xA306_C47E_748F_4279,
            octets: 12296,
            refused: 602,
        }
    );
    Ok(())
}

#[test]
fn a_randomized_stepped_block(rt: HostRuntime) -> Result<(), Fail> {
    let settings = Settings::new(3, 4, 9, 2, 1)?;
    let stepped = Interleaved::stepped(settings, 7)?;
    let found = drawn(&rt, settings, Randomized::over(stepped))?;
    assert_eq!(rt;
        found,
        Figures {
            digest: 0x9A1F_0394_DAEE_1DA3,
            octets: 6148,
            refused: 706,
        }
    );
    Ok(())
}

#[test]
fn a_stepped_block(rt: HostRuntime) -> Result<(), Fail> {
    let settings = Settings::new(5, 2, 255, 2, 1)?;
    let stepped = Interleaved::stepped(settings, 200)?;
    let found = drawn(&rt, settings, stepped)?;
    assert_eq!(rt;
        found,
        Figures {
            digest: 0x1E4F_AC91_C6DB_4E89,
            octets: 5114,
            refused: 718,
        }
    );
    Ok(())
}

#[test]
fn a_block_of_whole_rows(rt: HostRuntime) -> Result<(), Fail> {
    let settings = Settings::new(8, 3, 2040, 1, 1)?;
    let found = drawn(
        &rt,
        settings,
        Randomized::over(Interleaved::block(settings)),
    )?;
    assert_eq!(rt;
        found,
        Figures {
            digest: 0xD0FD_80CE_EDAA_94B9,
            octets: 12282,
            refused: 602,
        }
    );
    Ok(())
}

// Zero frames, randomized, begin the line with the sync word, count 0 and the sequence.
#[test]
fn zero_frames(rt: HostRuntime) -> Result<(), Fail> {
    let settings = Settings::new(1, 1, 5, 1, 1)?;
    let mapping = Randomized::over(Interleaved::block(settings));
    let mut sender = Sender::new(settings, Bare, mapping)?;
    let mut memory = [7; 255];
    assert!(rt; sender.put(&mut memory, &[0; 255]).is_ok());
    let mut out = [0; 12];
    assert!(rt; sender.draw(&memory, &mut out).is_ok());
    assert_eq!(rt;
        out,
        [
            0x1A, 0xCF, 0xFC, 0x1D, 0x00, 0x00, 0x00, 0xFF, 0x48, 0x0E, 0xC0, 0x9A,
        ]
    );
    Ok(())
}
