// The quote for a form's link.
ghost use Rattle.std.specs.Prelude.{◌≡◌};
ghost use Rattle.mapping.specs.Interleaver.{block_of};
ghost use Rattle.promise.specs.Kinds.{code_of};
ghost use Rattle.promise.specs.Quotes.{Quoted};
ghost use Rattle.sheet.specs.Figures.{figures_of};

use promise::{CodeName, Interleaver, Quote, quote_link};
use settings::Settings;

// The quote for a link with this code and these settings, over the block mapping. The contract holds the figures and the
// whole link promise at just these numbers.
pub fn quote_for(code: CodeName, settings: &Settings) -> Quote
    ensures figures { result ≡ figures_of code settings.now }
    ensures carried { Quoted settings.now (code_of code) (block_of settings.now) result }
{
    quote_link(settings, code, Interleaver::Block, false).unwrap()
}
