// A quote: numbers with the promise that they carry.
ghost use Rattle.promise.specs.Quotes.{Quotes};

use crate::Quote;
use code::Code;
use link::{MakingFault, mapping_fits};
use mapping::Mapping;
use settings::Settings;

// What may be quoted for a link of these settings with this code and this mapping: frame length, block length, the fade
// for the code's reach and the resync length. The contract holds the whole link promise at just these numbers.
// Refused: 10 the mapping was made for another depth or other rows.
pub(crate) fn quote<C: Code, M: Mapping>(
    settings: &Settings,
    code: &C,
    mapping: &M,
) -> Result<Quote, MakingFault>
    ensures { Quotes settings.now (C.Code.meaning code.now) (M.Mapping.meaning mapping.now) result }
{
    if !mapping_fits(settings, mapping) {
        return Err(MakingFault::Mapping);
    }
    Ok(Quote {
        frame: code.information() * settings.depth(),
        block: settings.block_length(),
        fade: mapping.fade(code.reach()).unwrap(),
        resync: settings.resync_length(),
    })
}
