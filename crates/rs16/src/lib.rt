// The code rs16: words of 223 information octets and 32 check octets, with up to 16 altered octets put right.
// Its definitions stand in specs/: the field, the dual basis of the line octets, and the codewords.
#![tactic(auto)]

mod calls;
mod coefficients;
mod corrections;
mod division;
mod field;
mod laws;
mod multiples;
mod places;
mod rows;
mod searching;
mod tables;
mod weaving;
mod windows;

pub use calls::{Rs16, rs16_means_rs16};
pub use corrections::{Correction, Corrections};
pub use field::{element_of, line_octet_of, product};
pub use laws::{bench_values_stand, field_is_lawful, rs16_is_lawful};
pub use searching::search_word;
