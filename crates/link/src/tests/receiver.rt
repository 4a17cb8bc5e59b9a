// The receiver run: lines with altered, lost, doubled and foreign octets, calls in any order, memories of right and wrong
// length, against the digests of compare/receiver.py.
use super::{Generator, START, digest};
use crate::{Kind, NextAnswer, Receiver, Report, Sender};
use code::{Bare, Code};
use mapping::{Interleaved, Mapping, Randomized};
use marker::Cause;
use rs16::Rs16;
use settings::Settings;
use std::process::Abort;
use std::test::Fail;

// The digest of all that was seen.
#[derive(Clone, Copy)]
struct Log(u64);

impl Log {
    fn see(&mut self, number: usize) {
        self.see_all(&(number as u64).to_le_bytes());
    }

    fn see_all(&mut self, octets: &[u8]) {
        self.0 = digest(self.0, octets);
    }

    fn see_report(&mut self, report: Option<Report>) {
        let Some(report) = report else {
            self.see(0);
            return;
        };
        // Kept: numbers for kinds here, and 0 for what is valid below, since the digests are of these numbers.
        self.see(match report.kind {
            Kind::Gained => 1,
            Kind::Hit => 2,
            Kind::Miss(Cause::SyncWord) => 3,
            Kind::Miss(Cause::Parity) => 4,
            Kind::Miss(Cause::Count) => 5,
        });
        self.see(report.count);
        self.see(report.digits);
        self.see(usize::from(report.fell));
    }

    fn see_row(&mut self, answer: NextAnswer) {
        self.see(answer.row);
        self.see(answer.altered);
        self.see(answer.gap);
        match answer.valid {
            Ok(()) => self.see(0),
            Err(block) => {
                self.see(block.fault.fault.number());
                self.see(block.row);
                self.see(block.fault.word);
            }
        }
    }
}

// Alters an octet of the line, if it has this place.
fn alter(line: &mut [u8], place: usize, by: usize) {
    if let Some(octet) = line.get_mut(place) {
        *octet ^= (by % 256) as u8;
    }
}

// Alters single octets.
fn speckle(line: &mut [u8], generator: &mut Generator) {
    for _ in 0..generator.draw() % 10 {
        let place = generator.draw() % 2100;
        alter(line, place, generator.draw());
    }
}

// Alters octets of markers: one digit, two digits or any.
fn spoil_markers(line: &mut [u8], period: usize, generator: &mut Generator) {
    for _ in 0..(generator.draw() % 6).saturating_sub(2) {
        let marker = (generator.draw() % 4).saturating_mul(period);
        let place = marker.saturating_add(2 + generator.draw() % 5);
        let by = match generator.draw() % 3 {
            0 => 0x10,
            1 => 0x06,
            _ => generator.draw(),
        };
        alter(line, place, by);
    }
}

// Alters most of some octets in a row.
fn fade(line: &mut [u8], generator: &mut Generator) {
    let start = generator.draw() % 2100;
    let length = (generator.draw() % 320).saturating_sub(128);
    for place in start..start + length {
        if generator.draw() % 4 > 0 {
            alter(line, place, generator.draw());
        }
    }
}

// Two ends, what damages the line between them, and what was seen of them.
#[derive(Drop)]
struct Run<C: Code, M: Mapping> {
    sender: Sender<C, M>,
    receiver: Receiver<C, M>,
    generator: Generator,
    log: Log,
}

impl<C: Code, M: Mapping> Run<C, M> {
    // Puts frames until one more is refused, and draws the block.
    fn send_block(&mut self, memory: &mut [u8], frame: &mut [u8], line: &mut [u8]) {
        for _ in 0..5 {
            self.generator.fill(frame);
            match self.sender.put(memory, frame) {
                Ok(row) => self.log.see(row),
                Err(fault) => self.log.see(fault.number()),
            }
        }
        match self.sender.draw(memory, line) {
            Ok(drawn) => self.log.see(drawn),
            Err(fault) => self.log.see(fault.number()),
        }
    }

    // Feeds octets, and answers how many were taken.
    fn feed(&mut self, memory: &mut [u8], octets: &[u8]) -> usize {
        match self.receiver.feed(memory, octets) {
            Ok((taken, report)) => {
                self.log.see(taken);
                self.log.see_report(report);
                taken
            }
            Err(fault) => {
                self.log.see(fault.number());
                0
            }
        }
    }

    // Feeds a piece of the line, and answers the place behind the octets taken.
    fn feed_line(&mut self, memory: &mut [u8], line: &[u8], at: usize) -> usize {
        let rest = &line[at.min(line.len())..];
        let size = (self.generator.draw() % 300).min(rest.len());
        at.saturating_add(self.feed(memory, &rest[..size]))
    }

    // Feeds octets that were never sent: about a marker.
    fn feed_foreign(&mut self, memory: &mut [u8]) {
        let first = (self.generator.draw() % 256) as u8;
        let count = (self.generator.draw() % 12) as u8;
        let octets = [first, 0x1A, 0xCF, 0xFC, 0x1D, 0, 0, count, first];
        self.feed(memory, &octets);
    }

    fn ask_next(&mut self, memory: &mut [u8]) {
        match self.receiver.next(memory) {
            Ok(answer) => self.log.see_row(answer),
            Err(fault) => self.log.see(fault.number()),
        }
    }

    fn ask_show(&mut self, memory: &[u8]) {
        match self.receiver.show(memory) {
            Ok(frame) => self.log.see_all(frame),
            Err(fault) => self.log.see(fault.number()),
        }
    }

    // One call, or octets lost or doubled; answers the place on the line behind it. Now and then the memory handed to the
    // call is too short or too long by one.
    fn turn(&mut self, memory: &mut [u8], line: &[u8], at: usize) -> usize {
        let size = match self.generator.draw() % 32 {
            0 => memory.len(),
            1 => memory.len().saturating_sub(2),
            _ => memory.len().saturating_sub(1),
        };
        let lent = &mut memory[..size];
        match self.generator.draw() % 64 {
            0 => return at.saturating_add(1 + self.generator.draw() % 9),
            1 => return at.saturating_sub(1 + self.generator.draw() % 9),
            2 => self.feed_foreign(lent),
            3..=20 => self.ask_next(lent),
            21..=26 => self.ask_show(lent),
            _ => return self.feed_line(lent, line, at),
        }
        at
    }

    // Goes along the line, if not to its end then for 80 turns.
    fn receive_block(&mut self, memory: &mut [u8], line: &[u8]) {
        let mut at = 0;
        for _ in 0..80 {
            if at < line.len() {
                at = self.turn(memory, line, at);
            }
        }
        self.log.see_all(memory);
    }

    // Damages the line of a block.
    fn damage(&mut self, line: &mut [u8], period: usize) {
        speckle(line, &mut self.generator);
        spoil_markers(line, period, &mut self.generator);
        fade(line, &mut self.generator);
    }
}

// The digest of what two ends with these settings do with two hundred blocks; each has a mapping of its own.
fn heard<C: Code + Copy, M: Mapping + Drop>(
    rt: &impl Abort,
    settings: Settings,
    code: C,
    sending: M,
    receiving: M,
) -> Result<u64, Fail> {
    let block = settings.block_length();
    let width = code.information() * settings.depth();
    let length = settings.subframes() * settings.period();
    assert!(rt; block <= 2040 && width <= 510 && length <= 2068);
    let mut sent = [0; 2040];
    let mut frame = [0; 510];
    let mut line = [0; 2068];
    let mut memory = [0; 2041];
    let mut generator = Generator(0x1ACF_FC1D);
    generator.fill(&mut memory);
    let mut run = Run {
        sender: Sender::new(settings, code, sending)?,
        receiver: Receiver::new(settings, code, receiving)?,
        generator,
        log: Log(START),
    };
    for _ in 0..200 {
        let drawn = &mut line[..length];
        run.send_block(&mut sent[..block], &mut frame[..width], drawn);
        run.damage(drawn, settings.period());
        run.receive_block(&mut memory[..block + 1], drawn);
    }
    Ok(run.log.0)
}

#[test]
fn two_subframes_and_no_second_miss(rt: HostRuntime) -> Result<(), Fail> {
    let settings = Settings::new(1, 2, 5, 1, 1)?;
    let block = Interleaved::block(settings);
    assert_eq!(rt;
        heard(&rt, settings, Bare, block, block)?,
        0xCEF3_54CF_B733_F6AD
    );
    Ok(())
}

#[test]
fn one_subframe(rt: HostRuntime) -> Result<(), Fail> {
    let settings = Settings::new(1, 2, 51, 2, 2)?;
    let block = Interleaved::block(settings);
    assert_eq!(rt;
        heard(&rt, settings, Bare, block, block)?,
        0x8970_EB71_EBAA_EFF2
    );
    Ok(())
}

#[test]
fn two_words_stepped_and_randomized(rt: HostRuntime) -> Result<(), Fail> {
    let settings = Settings::new(2, 4, 17, 2, 2)?;
    let mapping = Interleaved::stepped(settings, 7)?;
    let found = heard(
        &rt,
        settings,
        Bare,
        Randomized::over(mapping),
        Randomized::over(mapping),
    )?;
    assert_eq!(rt; found, 0xB5F5_407D_B2DC_435F);
    Ok(())
}

#[test]
fn rs16_randomized(rt: HostRuntime) -> Result<(), Fail> {
    let settings = Settings::new(1, 3, 15, 1, 3)?;
    let block = Interleaved::block(settings);
    let found = heard(
        &rt,
        settings,
        Rs16,
        Randomized::over(block),
        Randomized::over(block),
    )?;
    assert_eq!(rt; found, 0x84FA_4BF3_8C9D_C677);
    Ok(())
}

#[test]
fn rs16_two_words_stepped(rt: HostRuntime) -> Result<(), Fail> {
    let settings = Settings::new(2, 4, 6, 1, 2)?;
    let mapping = Interleaved::stepped(settings, 3)?;
    assert_eq!(rt;
        heard(&rt, settings, Rs16, mapping, mapping)?,
        0xE939_01C7_C2A4_00F1
    );
    Ok(())
}
