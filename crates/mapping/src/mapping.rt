// The interface of all mappings.
ghost use Rattle.std.specs.Prelude.{◌≡◌, ◌*◌};
ghost use Rattle.mapping.specs.Answers.{source_answer, mask_answer, fade_answer};
ghost use Rattle.mapping.specs.Bulk.{BlockAnswer, WriteAnswer, StoreAnswer};
ghost use Rattle.mapping.specs.Meaning.{MappingMeaning, MappingLaws};

use crate::MappingFault;

// How many octets a stretch of a block of so many takes that begins at line place `start` and has room for so many, or its
// refusal.
pub(crate) fn stretch_of(
    block: usize,
    octets: usize,
    start: usize,
    room: usize,
) -> Result<usize, MappingFault>
    ensures { BlockAnswer block octets start room result }
{
    if start >= block {
        return Err(MappingFault::Place);
    }
    if octets != block {
        return Err(MappingFault::Memory);
    }
    Ok(room.min(block - start))
}

// The same by depth and rows. The octets of a block may be past all numbers of the machine.
pub(crate) fn stretch(
    depth: usize,
    rows: usize,
    octets: usize,
    start: usize,
    room: usize,
) -> Result<usize, MappingFault>
    ensures { BlockAnswer (255 * depth * rows) octets start room result }
{
    let Some(block) = depth
        .checked_mul(rows)
        .and_then(|words| words.checked_mul(255))
    else {
        return Err(MappingFault::Memory);
    };
    stretch_of(block, octets, start, room)
}

// From where each data octet of the line comes. A mapping never changes.
pub trait Mapping {
    ghost meaning: { Self → MappingMeaning };

    // The words of a row.
    fn depth(&self) -> usize
        ensures { result ≡ (meaning self.now).depth };

    // The rows of a block.
    fn rows(&self) -> usize
        ensures { result ≡ (meaning self.now).rows };

    // The memory place that line place p comes from; 7 if p is not below the block's end.
    fn source(&self, p: usize) -> Result<usize, MappingFault>
        ensures { result ≡ source_answer (meaning self.now) p };

    // What is added at line place p, modulo 2; 7 if p is not below the block's end.
    fn mask(&self, p: usize) -> Result<u8, MappingFault>
        ensures { result ≡ mask_answer (meaning self.now) p };

    // The longest fade that a code of this reach rides through; 7 if the reach is above 16.
    fn fade(&self, reach: usize) -> Result<usize, MappingFault>
        ensures { result ≡ fade_answer (meaning self.now) reach };

    // Writes the line octets from place `start` on, until the output or the block ends, and answers how many;
    // the rest of the output is kept. 7 if `start` is not below the block's end, 11 if the memory is not of the
    // block's length; then the output is kept whole.
    fn write_line(&self, memory: &[u8], start: usize, out: &mut [u8]) -> Result<usize, MappingFault>
        ensures { WriteAnswer (meaning self.now) memory.now start out.old out.new result }
    {
        let taken = stretch(self.depth(), self.rows(), memory.len(), start, out.len())?;
        for (i, octet) in out[..taken].iter_mut().enumerate() {
            let q = self.source(start + i)?;
            let mask = self.mask(start + i)?;
            *octet = memory[q] ^ mask;
        }
        Ok(taken)
    }

    // Puts the line octets from place `start` on, each plus its mask, to their sources, until the line or the
    // block ends, and answers how many; the rest of the memory is kept. 7 if `start` is not below the block's
    // end, 11 if the memory is not of the block's length; then the memory is kept whole.
    fn store_line(
        &self,
        memory: &mut [u8],
        start: usize,
        line: &[u8],
    ) -> Result<usize, MappingFault>
        ensures { StoreAnswer (meaning self.now) line.now start memory.old memory.new result }
    {
        let taken = stretch(self.depth(), self.rows(), memory.len(), start, line.len())?;
        for (i, octet) in line[..taken].iter().enumerate() {
            let q = self.source(start + i)?;
            let mask = self.mask(start + i)?;
            memory[q] = *octet ^ mask;
        }
        Ok(taken)
    }

    ghost lawful: { (x : Self) → MappingLaws (meaning x) };
}
