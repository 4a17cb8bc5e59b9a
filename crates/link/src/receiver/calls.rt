// What a receiver does.
ghost use Rattle.std.specs.Prelude.{◌≡◌, []};
ghost use Rattle.std.specs.Result.{result_map_both};
ghost use Rattle.link.specs.Receiver.{MakesReceiver, Feeds, Nexts, Shows};
ghost use Rattle.link.specs.ReceiverSteps.{gap_at, state_fed};
ghost use Rattle.link.specs.FedOctets.{as_fed};

use crate::block::row_start;
use crate::encoding::frame_length;
use crate::line::Line;
use crate::mending::mend_row;
use crate::{
    BlockFault, FeedFault, Feeding, MakingFault, Mode, NextAnswer, NextFault, Receiver,
    ReceiverState, Report, ShowFault, Stop, Window,
};
use code::Code;
use mapping::Mapping;
use settings::Settings;

impl<C: Code + Drop, M: Mapping + Drop> Receiver<C, M> {
    // A receiver that hunts, and for which no frame waits. Refused: 10 the mapping was made for another depth or other rows.
    pub fn new(settings: Settings, code: C, mapping: M) -> Result<Receiver<C, M>, MakingFault>
        ensures { MakesReceiver C.Code.meaning M.Mapping.meaning settings code mapping result }
    {
        let line = Line::new(settings, mapping)?;
        let state = ReceiverState {
            mode: Mode::Hunting(Window::empty()),
            answered: settings.rows(),
            first: false,
            after_next: false,
        };
        Ok(Receiver { line, code, state })
    }
}

impl ReceiverState {
    // Behind a feed: where a block ended, all its frames wait.
    fn fed(self, feeding: Feeding) -> ReceiverState
        ensures { result ≡ state_fed self (as_fed feeding []) }
    {
        let (answered, first) = match feeding.stop {
            Some(Stop::Block { first }) => (0, first),
            _ => (self.answered, self.first),
        };
        ReceiverState {
            mode: feeding.mode,
            answered,
            first,
            after_next: false,
        }
    }

    // The gap of the row that is next: 1 on the first row of the first block after a lock, else 0.
    // Kept: that number is the answer that docs/FORMAT.md gives.
    fn gap(self) -> usize
        ensures { result ≡ gap_at self }
    {
        usize::from(self.answered == 0 && self.first)
    }
}

impl<C: Code, M: Mapping> Receiver<C, M> {
    // Goes through the octets one after the other; it stops behind the last one, behind a marker read, or behind a block's
    // last octet, and answers how many it took and the report of the marker, if one was read.
    // Refused, in this order: 11 the memory has not as many octets as a block; 15 frames wait.
    pub(crate) fn feed(
        &mut self,
        memory: &mut [u8],
        input: &[u8],
    ) -> Result<(usize, Option<Report>), FeedFault>
        ensures { Feeds C.Code.meaning M.Mapping.meaning self.old memory.old input.now result self.new memory.new }
    {
        // Kept: each call of an end tests this itself; a test with `ok_or` of each call's own fault is no shorter.
        if memory.len() != self.line.settings.block_length() {
            return Err(FeedFault::Memory);
        }
        if self.state.answered < self.line.settings.rows() {
            return Err(FeedFault::Waiting);
        }
        let fed = self.line.feed(self.state.mode, memory, input);
        self.state = self.state.fed(fed);
        Ok((fed.taken, fed.report()))
    }

    // Mends the next row of the memory that waits, word by word; no octet outside the row is written. A row that is not
    // valid is answered like any other.
    // Refused, in this order: 11 the memory has not as many octets as a block; 16 no frame waits.
    pub(crate) fn next(&mut self, memory: &mut [u8]) -> Result<NextAnswer, NextFault>
        ensures { Nexts C.Code.meaning M.Mapping.meaning self.old memory.old result self.new memory.new }
    {
        let settings = self.line.settings;
        if memory.len() != settings.block_length() {
            return Err(NextFault::Memory);
        }
        let row = self.state.answered;
        if row >= settings.rows() {
            return Err(NextFault::NoneWaits);
        }
        let start = row_start(&settings, row);
        let size = settings.row_length();
        let part = &mut memory[start..start + size];
        let mended = mend_row(&self.code, &settings, part);
        let gap = self.state.gap();
        self.state = ReceiverState {
            answered: row + 1,
            after_next: true,
            ..self.state
        };
        Ok(NextAnswer {
            row,
            altered: mended.altered,
            gap,
            valid: mended.valid.map_err(|fault| BlockFault { row, fault }),
        })
    }

    // Hands out the information octets of the row that next answered last, as a part of the memory.
    // Refused, in this order: 11 the memory has not as many octets as a block; 17 the latest accepted call of feed and next
    // was not next.
    pub(crate) fn show<'a>(&self, memory: &'a [u8]) -> Result<&'a [u8], ShowFault>
        ensures { Shows C.Code.meaning M.Mapping.meaning self.now memory.now (result_map_both (λ x. x.now) (λ e. e) result) }
    {
        let settings = self.line.settings;
        if memory.len() != settings.block_length() {
            return Err(ShowFault::Memory);
        }
        if !self.state.after_next {
            return Err(ShowFault::NotNext);
        }
        let start = row_start(&settings, self.state.answered - 1);
        let size = frame_length(&self.code, &settings);
        Ok(&memory[start..start + size])
    }
}
