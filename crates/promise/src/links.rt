// Quotes for links built with the codes and mappings that there are. Their contracts name definitions alone, so a type
// that meant something else would not be proved.
ghost use Rattle.std.specs.Prelude.{◌≡◌, true};
ghost use Rattle.link.specs.Refusal.{mapping_fits};
ghost use Rattle.promise.specs.Quotes.{Quoted};
ghost use Rattle.promise.specs.Kinds.{code_of, LinkQuoted};

use crate::quoting::quote;
use crate::{CodeName, Quote};
use code::{Bare, Code};
use mapping::{Interleaved, Interleaver, Mapping, MappingFault, Randomized};
use rs16::Rs16;
use settings::Settings;

// The quote over a mapping that fits the settings.
fn quote_fitting<C: Code, M: Mapping>(settings: &Settings, code: &C, mapping: &M) -> Quote
    requires { mapping_fits settings.now (M.Mapping.meaning mapping.now) ≡ true }
    ensures { Quoted settings.now (C.Code.meaning code.now) (M.Mapping.meaning mapping.now) result }
{
    quote(settings, code, mapping).unwrap()
}

// The quote over an interleaver's mapping, with the randomizer over it if that is wanted.
fn quote_interleaved<C: Code>(
    settings: &Settings,
    code: &C,
    interleaver: Interleaver,
    randomize: bool,
) -> Result<Quote, MappingFault>
    ensures { LinkQuoted settings.now (C.Code.meaning code.now) interleaver randomize result }
{
    let mapping = Interleaved::new(*settings, interleaver)?;
    if randomize {
        let layered = Randomized::over(mapping);
        return Ok(quote_fitting(settings, code, &layered));
    }
    Ok(quote_fitting(settings, code, &mapping))
}

// What may be quoted for a link of these settings, with this code and this interleaver and, if wanted, the randomizer.
// The contract holds the whole link promise at just these numbers. Refused: 6 the step is not 1 to 255.
pub fn quote_link(
    settings: &Settings,
    code: CodeName,
    interleaver: Interleaver,
    randomize: bool,
) -> Result<Quote, MappingFault>
    ensures { LinkQuoted settings.now (code_of code) interleaver randomize result }
{
    match code {
        CodeName::Rs16 => quote_interleaved(settings, &Rs16, interleaver, randomize),
        CodeName::Bare => quote_interleaved(settings, &Bare, interleaver, randomize),
    }
}
