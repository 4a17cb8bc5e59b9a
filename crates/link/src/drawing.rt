// Writing the line of a block, subframe by subframe.
ghost use Rattle.std.specs.Prelude.{◌≡◌, ◌<◌, length};
ghost use Rattle.settings.specs.Lengths.{block_length};
ghost use Rattle.marker.specs.Marker.{marker};
ghost use Rattle.link.specs.Line.{line_length};
ghost use Rattle.link.specs.Pieces.{MarkerWritten, PieceWritten, BlockLineWritten};

use crate::line::Line;
use mapping::Mapping;
use marker::write_marker;

// The marker of a subframe; a block has at most 4,096 of them.
pub(crate) fn subframe_marker(count: usize) -> [u8; 7]
    requires { count < 4096 }
    ensures { result ≡ marker count }
{
    write_marker(count).unwrap()
}

// Writes a marker from octet `start` on, until the output or the marker ends, and answers how many octets.
fn write_marker_from(count: usize, start: usize, out: &mut [u8]) -> usize
    requires count_low { count < 4096 }
    requires start_low { start < 7 }
    ensures { MarkerWritten count start result out.old out.new }
{
    let marker = subframe_marker(count);
    let rest = &marker[start..];
    let taken = out.len().min(rest.len());
    out[..taken].copy_from_slice(&rest[..taken]);
    taken
}

impl<M: Mapping> Line<M> {
    // The octets of a block on the line, markers counted.
    pub(crate) fn length(&self) -> usize
        ensures { result ≡ line_length self.now.settings }
    {
        self.settings.subframes() * self.settings.period()
    }

    // Writes the block's line from `place` on, at most until the marker or the subframe that the place is in ends.
    fn write_piece(&self, memory: &[u8], place: usize, out: &mut [u8]) -> usize
        requires memory_size { length memory.now ≡ block_length self.now.settings }
        requires within { place < line_length self.now.settings }
        ensures { PieceWritten self.now.settings (M.Mapping.meaning self.now.mapping) memory.now place result out.old out.new }
    {
        let period = self.settings.period();
        let count = place / period;
        let offset = place % period;
        if offset < 7 {
            return write_marker_from(count, offset, out);
        }
        let start = count * self.settings.subframe_data() + (offset - 7);
        let size = out.len().min(period - offset);
        let part = &mut out[..size];
        self.mapping.write_line(memory, start, part).unwrap()
    }

    // Writes the block's line from `place` on, until the output or the block ends, and answers how many octets.
    pub(crate) fn write_from(&self, memory: &[u8], place: usize, out: &mut [u8]) -> usize
        requires memory_size { length memory.now ≡ block_length self.now.settings }
        requires within { place < line_length self.now.settings }
        ensures { BlockLineWritten self.now.settings (M.Mapping.meaning self.now.mapping) memory.now place result out.old out.new }
    {
        let size = out.len().min(self.length() - place);
        let mut written = 0;
        // Kept: a `for` over the subframes would have to cut the first and the last piece.
        while written < size {
            written += self.write_piece(memory, place + written, &mut out[written..size]);
        }
        written
    }
}
