// The code bare: every word is a codeword, so there is nothing to add and nothing to mend.
ghost use Rattle.code.specs.Bare.{bare};
ghost use Rattle.code.specs.EveryWord.{bare_lawful};
ghost use Rattle.code.specs.Meaning.{SameMeaning};

use crate::{Code, MendFault, ShapeFault, check_shape};

#[derive(Clone, Copy)]
pub struct Bare;

impl Code for Bare {
    ghost meaning = { λ _. bare };

    ghost lawful = { λ x. bare_lawful };

    fn information(&self) -> usize {
        255
    }

    fn reach(&self) -> usize {
        0
    }

    fn encode(&self, row: &mut [u8], depth: usize, word: usize) -> Result<(), ShapeFault> {
        check_shape(row, depth, word)
    }

    fn mend(&self, row: &mut [u8], depth: usize, word: usize) -> Result<usize, MendFault> {
        check_shape(row, depth, word)?;
        Ok(0)
    }
}

// A theorem: what `Bare` means is the code bare, so that the contracts of `Code` say of it what bare's definition says.
pub fn bare_means_bare(code: &Bare)
    ensures { SameMeaning (⟦<Bare as Code>⟧.meaning code.now) bare }
{}
