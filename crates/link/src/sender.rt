// The sender's type; its calls are in the module below.
ghost use Rattle.std.specs.Prelude.{◌<◌, ◌≤◌};
ghost use Rattle.link.specs.Line.{line_length};

use crate::SenderState;
use crate::line::Line;
use code::Code;
use mapping::Mapping;

mod calls;

// One end of a link: frames are put, and the octets of the line are drawn. The block's memory is handed to each call.
#[derive(Drop)]
pub struct Sender<C: Code, M: Mapping> {
    line: Line<M>,
    code: C,
    state: SenderState,
    ghost put_most: { state.put ≤ line.settings.rows },
    ghost drawn_short: { state.drawn < line_length line.settings },
}
