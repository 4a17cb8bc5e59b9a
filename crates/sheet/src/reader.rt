// The reader of a line: each part is taken off the front of what is left, or what is left stays where it stops fitting.
ghost use Rattle.std.specs.Prelude.{[], ◌∷◌};
ghost use Rattle.sheet.specs.Reading.{closes, Passed, Read, CodeText, DigitRead, DigitsRead, ClosedNumber, NumberField, CodeField, FormText};

use crate::form::LinkForm;
use promise::CodeName;

// What is left of a line. Where a part does not fit, it begins with the first octet that does not; it is empty where the
// line ends too soon.
#[derive(Drop)]
pub(crate) struct Reader<'a> {
    pub rest: &'a [u8],
}

impl<'a> Reader<'a> {
    // These letters, one after the other.
    fn word(&mut self, letters: &[u8]) -> Option<()>
        ensures { Passed letters.now self.old.rest.now result self.new.rest.now }
    {
        for letter in letters {
            let (octet, after) = self.rest.split_first()?;
            if octet != letter {
                return None;
            }
            self.rest = after;
        }
        Some(())
    }

    // The bracket that ends a part.
    fn close(&mut self) -> Option<()>
        ensures { Passed (closes ∷ []) self.old.rest.now result self.new.rest.now }
    {
        self.word(b")")
    }

    // The name of a code; they begin with different letters.
    fn code_name(&mut self) -> Option<CodeName>
        ensures { Read CodeText self.old.rest.now result self.new.rest.now }
    {
        if self.rest.starts_with(b"b") {
            self.word(b"bare")?;
            Some(CodeName::Bare)
        } else {
            self.word(b"rs16")?;
            Some(CodeName::Rs16)
        }
    }

    // A digit.
    fn digit(&mut self) -> Option<usize>
        ensures { DigitRead self.old.rest.now result self.new.rest.now }
    {
        let (octet, after) = self.rest.split_first()?;
        let digit = char::from(*octet).to_digit(10)?;
        self.rest = after;
        Some(digit as usize)
    }

    // The digits of a typed number: 0 alone, or up to five of which the first is not 0.
    fn digits(&mut self) -> Option<usize>
        ensures { DigitsRead self.old.rest.now result self.new.rest.now }
    {
        let mut value = self.digit()?;
        while value > 0 && value < 10_000 {
            let Some(digit) = self.digit() else {
                return Some(value);
            };
            value = value * 10 + digit;
        }
        Some(value)
    }

    // A typed number, and the bracket that ends it.
    fn closed_number(&mut self) -> Option<usize>
        ensures { Read ClosedNumber self.old.rest.now result self.new.rest.now }
    {
        let number = self.digits()?;
        self.close()?;
        Some(number)
    }

    // A space, and a number in brackets behind its name.
    fn number_field(&mut self, name: &[u8]) -> Option<usize>
        ensures { Read (NumberField name.now) self.old.rest.now result self.new.rest.now }
    {
        self.word(b" (")?;
        self.word(name)?;
        self.word(b" ")?;
        self.closed_number()
    }

    // The form's beginning, up to the bracket behind its code.
    fn code_field(&mut self) -> Option<CodeName>
        ensures { Read CodeField self.old.rest.now result self.new.rest.now }
    {
        self.word(b"(link (code ")?;
        let code = self.code_name()?;
        self.close()?;
        Some(code)
    }

    // The whole form.
    pub(crate) fn form(&mut self) -> Option<LinkForm>
        ensures { Read FormText self.old.rest.now result self.new.rest.now }
    {
        let code = self.code_field()?;
        let depth = self.number_field(b"depth")?;
        let symbol = self.number_field(b"symbol")?;
        let rows = self.number_field(b"rows")?;
        let subframe_rows = self.number_field(b"sub")?;
        let miss_limit = self.number_field(b"misses")?;
        self.close()?;
        Some(LinkForm {
            code,
            depth,
            symbol,
            rows,
            subframe_rows,
            miss_limit,
        })
    }
}
