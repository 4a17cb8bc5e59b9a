// The receiver's type; its calls are in the module below.
ghost use Rattle.std.specs.Prelude.{◌≡◌, ◌≤◌, true};
ghost use Rattle.link.specs.ReceiverFits.{mode_is_fit, next_is_fit};

use crate::ReceiverState;
use crate::line::Line;
use code::Code;
use mapping::Mapping;

mod calls;

// The other end of a link: the octets of the line are fed, and frames are handed out. The block's memory is handed to each call.
#[derive(Drop)]
pub struct Receiver<C: Code, M: Mapping> {
    line: Line<M>,
    code: C,
    state: ReceiverState,
    ghost mode_fits: { mode_is_fit line.settings state.mode ≡ true },
    ghost answered_most: { state.answered ≤ line.settings.rows },
    ghost next_fits: { next_is_fit state.after_next state.answered ≡ true },
}
