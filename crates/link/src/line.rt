// The line's type; writing to it and feeding from it are in the modules `drawing` and `feeding`.
ghost use Rattle.std.specs.Prelude.{◌≡◌, true};
ghost use Rattle.link.specs.Refusal.{mapping_fits};

use crate::MakingFault;
use crate::fitting::mapping_fits;
use mapping::Mapping;
use settings::Settings;

// How the octets of a block's memory go over the line: the settings, and a mapping that is made for them.
#[derive(Drop)]
pub(crate) struct Line<M: Mapping> {
    pub(crate) settings: Settings,
    pub(crate) mapping: M,
    ghost fits: { mapping_fits settings (M.Mapping.meaning mapping) ≡ true },
}

impl<M: Mapping + Drop> Line<M> {
    ghost use Rattle.link.specs.LineMade.{MakesLine};

    // The line of these. Refused: 10 the mapping was made for another depth or other rows.
    pub(crate) fn new(settings: Settings, mapping: M) -> Result<Line<M>, MakingFault>
        ensures { MakesLine M.Mapping.meaning settings mapping result }
    {
        if !mapping_fits(&settings, &mapping) {
            return Err(MakingFault::Mapping);
        }
        Ok(Line { settings, mapping })
    }
}
