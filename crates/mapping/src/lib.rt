// Mappings: from which place of a block's memory each data octet of the line comes, what is added to it,
// and how long a fade a code of a given reach rides through.
#![tactic(auto)]

mod fault;
mod interleaved;
mod interleaver;
mod mapping;
mod randomizer;
mod sequence;
mod theorems;
mod walk;

pub use fault::MappingFault;
pub use interleaved::Interleaved;
pub use interleaver::Interleaver;
pub use mapping::Mapping;
pub use randomizer::Randomized;
pub use sequence::sequence_octet;
pub use theorems::{
    figures_stand, line_comes_back, randomizer_stands, ridden_fade, symbol_costs_stand,
};
