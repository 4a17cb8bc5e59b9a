// One line of the sheet: the form that it is written for, and its quote.
ghost use Rattle.std.specs.Prelude.{◌≡◌, Some};
ghost use Rattle.sheet.specs.Answers.{fault_text};
ghost use Rattle.sheet.specs.Line.{FormRead, LineQuoted, number};
ghost use Rattle.sheet.specs.declared.line.LineFault.TheVariants.{Unfit, Refused};

use crate::figures::quote_for;
use crate::form::LinkForm;
use crate::reader::Reader;
use promise::Quote;
use settings::{Settings, SettingsFault};
use std::fmt;

// The place of the first octet that fits no form, or the line's length where it ends too soon.
#[derive(Clone, Copy, Debug, PartialEq, Eq)]
pub struct Misfit {
    pub place: usize,
}

// Why a line gets no quote: it is written for no form, or the form's numbers are no settings.
#[derive(Clone, Copy, Debug, PartialEq, Eq)]
pub enum LineFault {
    Unfit(Misfit),
    Refused(SettingsFault),
}

impl LineFault {
    // The refusal's number: 18, or that of the settings.
    // Kept: refusals are told by their numbers, which docs/CALLS.md lists.
    pub fn number(&self) -> usize
        ensures { result ≡ number self.now }
    {
        match *self {
            LineFault::Unfit(_) => 18,
            LineFault::Refused(fault) => fault.number(),
        }
    }
}

// The refusal's number, and with 18 the place.
impl fmt::Display for LineFault {
    ghost output = { λ fault. Some (fault_text fault) };

    fn fmt<W: fmt::Write>(&self, f: &mut fmt::Formatter<W>) -> fmt::Result {
        let number = self.number();
        match *self {
            LineFault::Unfit(Misfit { place }) => write!(f, "(refused {number} at {place})"),
            LineFault::Refused(_) => write!(f, "(refused {number})"),
        }
    }
}

impl From<Misfit> for LineFault {
    ghost from_gives = { λ m f. f ≡ Unfit m };

    fn from(misfit: Misfit) -> LineFault {
        LineFault::Unfit(misfit)
    }
}

impl From<SettingsFault> for LineFault {
    ghost from_gives = { λ e f. f ≡ Refused e };

    fn from(fault: SettingsFault) -> LineFault {
        LineFault::Refused(fault)
    }
}

// The form that the line is written for, or where it stops fitting any.
pub fn read_form(line: &[u8]) -> Result<LinkForm, Misfit>
    ensures { FormRead line.now result }
{
    let mut reader = Reader { rest: line };
    match reader.form() {
        Some(form) if reader.rest.is_empty() => Ok(form),
        _ => Err(Misfit {
            place: line.len() - reader.rest.len(),
        }),
    }
}

// The quote that the line asks for, or why there is none.
pub fn quote_line(line: &[u8]) -> Result<Quote, LineFault>
    ensures { LineQuoted line.now result }
{
    let form = read_form(line)?;
    let settings = Settings::try_from(&form)?;
    Ok(quote_for(form.code, &settings))
}
