// Markers: the seven octets before a subframe. Writing one, reading one, and telling how seven octets differ from the one expected.
#![tactic(auto)]

mod cause;
mod compare;
mod read;
mod reading;
mod theorems;
mod write;

pub use cause::Cause;
pub use compare::{digits_apart, first_cause};
pub use read::read_marker;
pub use reading::Reading;
pub use theorems::{figures_stand, marker_laws_stand};
pub use write::write_marker;
