// The link promise: what holds of the two ends of a link over whole histories of calls, and the quotes that carry it.
#![tactic(auto)]

mod figures;
mod kinds;
mod links;
mod quoting;
mod theorems;

pub use figures::Quote;
pub use kinds::CodeName;
pub use links::quote_link;
pub use mapping::Interleaver;
pub use theorems::{bench_values_stand, promise_applies};
