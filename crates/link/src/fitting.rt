// Whether a mapping fits the settings of an end.
ghost use Rattle.std.specs.Prelude.{◌≡◌};
ghost use Rattle.link.specs.Refusal.{mapping_fits};

use mapping::Mapping;
use settings::Settings;

// Whether the mapping is made for the depth and the rows of the settings.
pub fn mapping_fits<M: Mapping>(settings: &Settings, mapping: &M) -> bool
    ensures { result ≡ mapping_fits settings.now (M.Mapping.meaning mapping.now) }
{
    mapping.depth() == settings.depth() && mapping.rows() == settings.rows()
}
