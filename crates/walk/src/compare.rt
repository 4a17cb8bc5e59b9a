// A mapping's walk against its sources one by one, over a whole block.
ghost use Rattle.std.specs.Prelude.{◌<◌};

use mapping::{Mapping, MappingFault};

// Whether the walk wrote the line that the sources give, and whether the line, stored, gives the memory again.
#[derive(Clone, Copy)]
pub(crate) struct Verdict {
    pub(crate) checksum: u32,
    pub(crate) alike: bool,
    pub(crate) back: bool,
}

// Octets to look at, which hardly repeat.
pub(crate) fn fill(memory: &mut [u8]) {
    for (q, octet) in memory.iter_mut().enumerate() {
        *octet = (q.wrapping_mul(2_654_435_761) / 65_536 % 256) as u8;
    }
}

// One number for a line.
fn checksum_of(line: &[u8]) -> u32 {
    line.iter().fold(2_166_136_261, |sum, octet| {
        (sum ^ u32::from(*octet)).wrapping_mul(16_777_619)
    })
}

// The line, place by place.
pub(crate) fn write_by_place<M: Mapping>(
    mapping: &M,
    memory: &[u8],
    line: &mut [u8],
) -> Result<(), MappingFault> {
    for (p, octet) in line.iter_mut().enumerate() {
        let q = mapping.source(p)?;
        let mask = mapping.mask(p)?;
        if let Some(held) = memory.get(q) {
            *octet = *held ^ mask;
        }
    }
    Ok(())
}

// The line in stretches, which end anywhere in a symbol.
pub(crate) fn write_in_stretches<M: Mapping>(
    mapping: &M,
    memory: &[u8],
    line: &mut [u8],
    stretch: usize,
) -> Result<(), MappingFault>
    requires { 0 < stretch }
{
    let mut at = 0;
    for part in line.chunks_mut(stretch) {
        at += mapping.write_line(memory, at, part)?;
    }
    Ok(())
}

// The memory from the line, in stretches.
pub(crate) fn store_in_stretches<M: Mapping>(
    mapping: &M,
    memory: &mut [u8],
    line: &[u8],
    stretch: usize,
) -> Result<(), MappingFault>
    requires { 0 < stretch }
{
    let mut at = 0;
    for part in line.chunks(stretch) {
        at += mapping.store_line(memory, at, part)?;
    }
    Ok(())
}

pub(crate) fn compare<M: Mapping>(
    mapping: &M,
    memory: &[u8],
    line: &mut [u8],
    other: &mut [u8],
) -> Result<Verdict, MappingFault> {
    write_by_place(mapping, memory, line)?;
    write_in_stretches(mapping, memory, other, 997)?;
    let alike = line[..] == other[..];
    store_in_stretches(mapping, other, line, 613)?;
    let back = other[..] == memory[..];
    Ok(Verdict {
        checksum: checksum_of(line),
        alike,
        back,
    })
}
