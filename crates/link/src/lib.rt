// The link: the line, and the two ends of it. Frames go in at the sender and line octets come out.
#![tactic(auto)]

mod block;
mod chunking;
mod drawing;
mod encoding;
mod fault;
mod feeding;
mod fitting;
mod hearing;
mod line;
mod mending;
mod receiver;
mod receiving;
mod reception;
mod report;
mod sender;
mod state;
#[cfg(test)]
mod tests;
mod theorems;

pub use chunking::any_chunking_stands;
pub use fault::{DrawFault, MakingFault, PutFault};
pub use feeding::{Feeding, Stop};
pub use fitting::mapping_fits;
pub use mending::{RowAnswer, RowFault};
pub use receiver::Receiver;
pub use receiving::{Lock, Mode, ReceiverState, Window};
pub use reception::{BlockFault, FeedFault, NextAnswer, NextFault, ShowFault};
pub use report::{Kind, Report};
pub use sender::Sender;
pub use state::SenderState;
pub use theorems::{one_row_stands, sender_laws_stand};
