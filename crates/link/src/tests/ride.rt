// Both ends over a line that is covered: junk before it, taken up anywhere, every second marker altered, and in each block a
// fade of full length. Each frame comes back as it was put; at one octet more, from data place 0 on, a frame is lost.
use super::Generator;
use crate::{Receiver, Sender};
use code::Code;
use mapping::{Interleaved, Mapping, Randomized};
use rs16::Rs16;
use settings::Settings;
use std::ops::Range;
use std::process::Abort;
use std::test::Fail;

// The octets of a frame, of a subframe's data and of a period in these tests: two words of rs16 to a row, a row to a subframe.
const FRAME: usize = 446;

const DATA: usize = 510;

const PERIOD: usize = 517;

// The octets of a block's frames, of its memory and of its line: three rows to a block.
const FRAMES: usize = 1338;

const MEMORY: usize = 1530;

const LINE: usize = 1551;

// Alters an octet, to any other.
fn alter(octet: &mut u8, generator: &mut Generator) {
    *octet ^= (1 + generator.draw() % 255) as u8;
}

// Alters the octets at these data places, markers not counted.
fn alter_data(line: &mut [u8; LINE], places: Range<usize>, generator: &mut Generator) {
    for place in places.start..places.end.min(MEMORY) {
        alter(
            &mut line[place / DATA * PERIOD + 7 + place % DATA],
            generator,
        );
    }
}

// Alters one octet of each marker whose number on the line is odd. A block has three of them.
fn alter_markers(line: &mut [u8; LINE], block: usize, generator: &mut Generator) {
    for marker in 0..3 {
        if block % 2 != marker % 2 {
            alter(&mut line[marker * PERIOD + generator.draw() % 7], generator);
        }
    }
}

// Both ends, the receiver's memory, and what frames and damage are made by.
#[derive(Drop)]
struct Run<C: Code, M: Mapping> {
    sender: Sender<C, M>,
    receiver: Receiver<C, M>,
    memory: [u8; MEMORY],
    generator: Generator,
}

impl<C: Code, M: Mapping> Run<C, M> {
    // Puts the frames of a block, and draws its line in pieces.
    fn send(&mut self, rt: &impl Abort, frames: &[u8], line: &mut [u8]) -> Result<(), Fail> {
        let mut memory = [0; MEMORY];
        for (row, frame) in frames.chunks(FRAME).enumerate() {
            assert!(rt; self.sender.put(&mut memory, frame)? == row);
        }
        let mut drawn = 0;
        for _ in 0..LINE {
            let from = drawn.min(line.len());
            let size = (1 + self.generator.draw() % 400).min(line.len() - from);
            if size > 0 {
                drawn = from + self.sender.draw(&memory, &mut line[from..from + size])?;
            }
        }
        assert!(rt; drawn == line.len());
        Ok(())
    }

    // Feeds octets in pieces of any size until all are taken or frames wait.
    fn feed_on(&mut self, octets: &[u8]) {
        let mut rest = octets;
        for _ in 0..LINE {
            let size = (self.generator.draw() % 300).min(rest.len());
            if let Ok((taken, _)) = self.receiver.feed(&mut self.memory, &rest[..size]) {
                rest = &rest[taken.min(size)..];
            }
        }
    }

    // Whether the next row is this one, valid, and shown as it was put.
    fn row_back(&mut self, row: usize, frame: &[u8]) -> bool {
        let Ok(answer) = self.receiver.next(&mut self.memory) else {
            return false;
        };
        answer.row == row && answer.valid.is_ok() && self.receiver.show(&self.memory) == Ok(frame)
    }

    // Whether each row of a block came back so; all that wait are asked for.
    fn rows_back(&mut self, frames: &[u8]) -> bool {
        let mut back = true;
        for (row, frame) in frames.chunks(FRAME).enumerate() {
            back &= self.row_back(row, frame);
        }
        back
    }

    // Sends a block, alters these data places of its line and its markers, feeds the line from octet `from` on, and answers
    // whether each row came back.
    fn pass(
        &mut self,
        rt: &impl Abort,
        block: usize,
        altered: Range<usize>,
        from: usize,
    ) -> Result<bool, Fail> {
        let mut frames = [0; FRAMES];
        let mut line = [0; LINE];
        self.generator.fill(&mut frames);
        self.send(rt, &frames, &mut line)?;
        alter_data(&mut line, altered, &mut self.generator);
        alter_markers(&mut line, block, &mut self.generator);
        self.feed_on(&line[from.min(LINE)..]);
        Ok(self.rows_back(&frames))
    }

    // Passes blocks with a fade of full length each; behind the first two, each frame comes back. Then one with a longer one.
    fn ride(&mut self, rt: &impl Abort, fade: usize, taken_up: usize) -> Result<(), Fail> {
        let mut junk = [0; 300];
        self.generator.fill(&mut junk);
        self.feed_on(&junk);
        let false_marker = [0x1A, 0xCF, 0xFC, 0x1D, 0, 0, 0];
        self.feed_on(&false_marker);
        for block in 0..12 {
            let start = self.generator.draw() % MEMORY;
            let altered = start..start.saturating_add(fade);
            let from = if block == 0 { taken_up } else { 0 };
            let back = self.pass(rt, block, altered, from)?;
            assert!(rt; block < 2 || back);
        }
        let longer = 0..fade.saturating_add(1);
        assert!(rt; !self.pass(rt, 12, longer, 0)?);
        Ok(())
    }
}

// Rides on a link of rs16 with this mapping, taken up at this place of its line.
fn rides<M: Mapping + Drop>(
    rt: &impl Abort,
    settings: Settings,
    sending: M,
    receiving: M,
    taken_up: usize,
) -> Result<(), Fail> {
    let fade = sending.fade(Rs16.reach())?;
    let mut memory = [0; MEMORY];
    let mut generator = Generator(0x0BAD_CAFE);
    generator.fill(&mut memory);
    let mut run = Run {
        sender: Sender::new(settings, Rs16, sending)?,
        receiver: Receiver::new(settings, Rs16, receiving)?,
        memory,
        generator,
    };
    run.ride(rt, fade, taken_up)
}

#[test]
fn rides_through_block_randomized(rt: HostRuntime) -> Result<(), Fail> {
    let settings = Settings::new(2, 3, 5, 1, 2)?;
    let block = Interleaved::block(settings);
    for turn in 0..9 {
        rides(
            &rt,
            settings,
            Randomized::over(block),
            Randomized::over(block),
            turn * 191,
        )?;
    }
    Ok(())
}

#[test]
fn rides_through_stepped(rt: HostRuntime) -> Result<(), Fail> {
    let settings = Settings::new(2, 3, 6, 1, 2)?;
    let mapping = Interleaved::stepped(settings, 7)?;
    rides(&rt, settings, mapping, mapping, 3)
}
