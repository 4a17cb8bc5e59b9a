// The randomizer: a layer over any mapping.
ghost use Rattle.std.specs.Prelude.{◌≡◌, refl};
ghost use Rattle.mapping.specs.Randomizer.{randomized};
ghost use Rattle.std.proofs.lemmas.Nat.{xor_lt};
ghost use Rattle.mapping.specs.Laws.{laws_alike};
ghost use Rattle.mapping.specs.Digits.{sequence_lt};

use crate::sequence::add_sequence;
use crate::{Mapping, MappingFault, sequence_octet};

// The octets that are randomized at a time.
const PART: usize = 255;

// The mapping below, with the randomizer's sequence added to its mask.
#[derive(Drop)]
pub struct Randomized<M> {
    below: M,
}

impl<M> Randomized<M> {
    // The randomizer over a mapping.
    pub fn over(below: M) -> Randomized<M>
        ensures { result.below ≡ below }
    {
        Randomized { below }
    }
}

impl<M: Mapping> Mapping for Randomized<M> {
    ghost meaning = { λ x. randomized (M.Mapping.meaning x.below) };

    ghost lawful = { λ x.
        let low = M.Mapping.lawful x.below in
        laws_alike _ _ _ (λ p h. refl) (λ p h. xor_lt 8 _ _ (low.octet p h) (sequence_lt p)) low };

    fn depth(&self) -> usize {
        self.below.depth()
    }

    fn rows(&self) -> usize {
        self.below.rows()
    }

    fn source(&self, p: usize) -> Result<usize, MappingFault> {
        self.below.source(p)
    }

    fn mask(&self, p: usize) -> Result<u8, MappingFault> {
        let mask = self.below.mask(p)?;
        Ok(mask ^ sequence_octet(p))
    }

    fn fade(&self, reach: usize) -> Result<usize, MappingFault> {
        self.below.fade(reach)
    }

    fn write_line(
        &self,
        memory: &[u8],
        start: usize,
        out: &mut [u8],
    ) -> Result<usize, MappingFault> {
        let taken = self.below.write_line(memory, start, out)?;
        add_sequence(&mut out[..taken], start);
        Ok(taken)
    }

    fn store_line(
        &self,
        memory: &mut [u8],
        start: usize,
        line: &[u8],
    ) -> Result<usize, MappingFault> {
        let mut taken = self.below.store_line(memory, start, &[])?;
        let wanted = line.len().min(memory.len() - start);
        for chunk in line[..wanted].chunks(PART) {
            let mut buffer = [0; PART];
            let part = &mut buffer[..chunk.len()];
            part.copy_from_slice(chunk);
            add_sequence(part, start + taken);
            taken += self.below.store_line(memory, start + taken, part)?;
        }
        Ok(taken)
    }
}
