// The text of the answers, line by line.
ghost use Rattle.std.specs.Prelude.{IfOk, OnOk, string_bytes};
ghost use Rattle.sheet.specs.Answers.{AnswerTo, AnswersTo, AnswersInput};

use crate::line::quote_line;
use std::alloc::{AllocError, Global};
use std::io;
use std::io::{Read, Write};

// The octets of a sheet that are read.
const SHEET_LIMIT: usize = 65_536;

// The answer to one line, without its line feed.
pub fn answer_line(heap: Global, line: &[u8]) -> Result<String, AllocError>
    ensures { IfOk result (λ s. AnswerTo line.now (string_bytes s)) }
{
    match quote_line(line) {
        Ok(quote) => quote.to_string(heap),
        Err(fault) => fault.to_string(heap),
    }
}

// The answers to a sheet: one line for each line of its first 65,536 octets.
pub fn answer_sheet(heap: Global, sheet: &[u8]) -> Result<String, AllocError>
    ensures { IfOk result (λ s. AnswersTo sheet.now (string_bytes s)) }
{
    let read = &sheet[..SHEET_LIMIT.min(sheet.len())];
    let mut answers = String::new(heap);
    for line in read.split_inclusive(|octet| *octet == b'\n') {
        let line = line.strip_suffix(b"\n").unwrap_or(line);
        answers.push_str(answer_line(heap, line)?.as_str())?;
        answers.push('\n')?;
    }
    Ok(answers)
}

// Reads a sheet, and writes its answers.
pub fn answer_input<R: Read + Drop, W: Write>(
    heap: Global,
    input: R,
    output: &mut W,
) -> io::Result<()>
    ensures { OnOk result (AnswersInput (R.Read.remaining input) (W.Write.contents output.old) (W.Write.contents output.new)) }
{
    let mut sheet = Vec::new(heap);
    input.take(SHEET_LIMIT as u64).read_to_end(&mut sheet)?;
    let answers = answer_sheet(heap, sheet.as_slice())?;
    output.write_all(answers.as_bytes())
}

#[cfg(test)]
mod tests {
    use super::*;

    #[test]
    fn sheet_is_read_and_answered(rt: HostRuntime) -> io::Result<()> {
        let sheet =
            b"(link (code rs16) (depth 1) (symbol 5) (rows 2) (sub 1) (misses 1))\n(link (code rs8)";
        let mut output = Vec::new(rt.alloc());
        answer_input(rt.alloc(), sheet.as_slice(), &mut output)?;
        let answers =
            b"(quote (frame 223) (block 510) (fade 31) (resync 262))\n(refused 18 at 14)\n";
        assert!(rt; output.as_slice() == answers.as_slice());
        Ok(())
    }
}
