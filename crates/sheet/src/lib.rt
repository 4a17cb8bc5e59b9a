// The quote sheet: from the octets of a sheet to the text of its answers.
#![tactic(auto)]

mod answers;
mod figures;
mod form;
mod line;
mod reader;

pub use answers::{answer_input, answer_line, answer_sheet};
pub use figures::quote_for;
pub use form::LinkForm;
pub use line::{LineFault, Misfit, quote_line, read_form};
pub use promise::{CodeName, Quote};
