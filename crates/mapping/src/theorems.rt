// What holds of every mapping, and figures of the definitions.
ghost use Rattle.std.specs.Prelude.{◌≡◌};
ghost use Rattle.mapping.specs.ComesBack.{ComesBack};
ghost use Rattle.mapping.specs.Cost.{SymbolCosts};
ghost use Rattle.mapping.specs.FadeKept.{RiddenFade};
ghost use Rattle.mapping.specs.Figures.{Figures};
ghost use Rattle.mapping.specs.Randomizer.{randomized};

use crate::{Mapping, MappingFault, Randomized};
use settings::Settings;

// The fade for a reach: whatever is altered within so many line places in a row, no word has more octets
// altered than the reach. 7 if the reach is above 16.
pub fn ridden_fade<M: Mapping>(mapping: &M, reach: usize) -> Result<usize, MappingFault>
    ensures { RiddenFade (M.Mapping.meaning mapping.now) reach result }
{
    mapping.fade(reach)
}

// The randomizer over a mapping means what its definition says of that mapping.
pub fn randomizer_stands<M: Mapping>(layered: &Randomized<M>)
    ensures { ⟦<Randomized<M> as Mapping>⟧.meaning layered.now ≡ randomized (M.Mapping.meaning layered.now.below) }
{}

// Whatever the mapping, the line of a block, stored as it was written, gives the memory again.
pub fn line_comes_back<M: Mapping>(_mapping: &M)
    ensures { ComesBack (M.Mapping.meaning _mapping.now) }
{}

// What the line places of the block and the stepped mappings cost, from which their fade follows.
pub fn symbol_costs_stand(settings: &Settings)
    ensures { SymbolCosts settings.now }
{}

// The figures of docs/FORMAT.md follow from the definitions.
pub fn figures_stand()
    ensures { Figures }
{}
