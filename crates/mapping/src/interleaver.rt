// The interleavers, by name.

// In which order a block's octets go to the line: by the block mapping, or by the stepped mapping with a step.
#[derive(Clone, Copy, Debug, PartialEq, Eq)]
pub enum Interleaver {
    Block,
    Stepped(usize),
}
