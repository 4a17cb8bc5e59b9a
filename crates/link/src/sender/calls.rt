// What a sender does.
ghost use Rattle.link.specs.Sender.{Makes, Puts, Draws};

use crate::block::row_start;
use crate::encoding::{encode_frame, frame_length};
use crate::line::Line;
use crate::{DrawFault, MakingFault, PutFault, Sender, SenderState};
use code::Code;
use mapping::Mapping;
use settings::Settings;

impl<C: Code + Drop, M: Mapping + Drop> Sender<C, M> {
    // A sender with no frame put. Refused: 10 the mapping was made for another depth or other rows.
    pub fn new(settings: Settings, code: C, mapping: M) -> Result<Sender<C, M>, MakingFault>
        ensures { Makes C.Code.meaning M.Mapping.meaning settings code mapping result }
    {
        let line = Line::new(settings, mapping)?;
        Ok(Sender {
            line,
            code,
            state: SenderState::default(),
        })
    }
}

impl<C: Code, M: Mapping> Sender<C, M> {
    // Encodes a frame as the next row of the memory and answers that row's number; no octet outside the row is written.
    // Refused, in this order: 11 the memory has not as many octets as a block; 12 the frame has not as many as the
    // information of a row; 13 the block is full and not wholly drawn.
    pub(crate) fn put(&mut self, memory: &mut [u8], frame: &[u8]) -> Result<usize, PutFault>
        ensures { Puts C.Code.meaning M.Mapping.meaning self.old memory.old frame.now result self.new memory.new }
    {
        let settings = self.line.settings;
        if memory.len() != settings.block_length() {
            return Err(PutFault::Memory);
        }
        if frame.len() != frame_length(&self.code, &settings) {
            return Err(PutFault::Frame);
        }
        let row = self.state.put;
        if row >= settings.rows() {
            return Err(PutFault::Full);
        }
        let start = row_start(&settings, row);
        let size = settings.row_length();
        let part = &mut memory[start..start + size];
        encode_frame(&self.code, &settings, part, frame);
        self.state.put = row + 1;
        Ok(row)
    }

    // Writes the next octets of the line, markers included, until the output or the block ends, and answers how many; the
    // rest of the output is left. Behind the block's last octet no frame of the next block is put yet.
    // Refused, in this order: 11 the memory has not as many octets as a block; 14 fewer frames are put than the block has rows.
    pub(crate) fn draw(&mut self, memory: &[u8], out: &mut [u8]) -> Result<usize, DrawFault>
        ensures { Draws C.Code.meaning M.Mapping.meaning self.old memory.now out.old result self.new out.new }
    {
        if memory.len() != self.line.settings.block_length() {
            return Err(DrawFault::Memory);
        }
        if self.state.put < self.line.settings.rows() {
            return Err(DrawFault::Unfilled);
        }
        let place = self.state.drawn;
        let written = self.line.write_from(memory, place, out);
        let drawn = place + written;
        self.state = if drawn < self.line.length() {
            SenderState {
                drawn,
                ..self.state
            }
        } else {
            SenderState::default()
        };
        Ok(written)
    }
}
