// Mending a row word by word.
ghost use Rattle.std.specs.Prelude.{◌≡◌, length};
ghost use Rattle.settings.specs.Lengths.{row_length};
ghost use Rattle.link.specs.RowMending.{MendedRow};

use code::{Code, MendFault};
use settings::Settings;

// A word of the row can't be mended: which, and why.
#[derive(Clone, Copy, Debug, PartialEq, Eq)]
pub struct RowFault {
    pub word: usize,
    pub fault: MendFault,
}

// The octets altered in a row, and whether each of its words is mended: if not, the first that is not.
#[derive(Clone, Copy, Debug, PartialEq, Eq)]
pub struct RowAnswer {
    pub altered: usize,
    pub valid: Result<(), RowFault>,
}

// Mends each word of the row that a codeword is within reach of, and leaves the others. A word that can't be mended does
// not stop those behind it; the first such word is answered.
pub(crate) fn mend_row<C: Code>(code: &C, settings: &Settings, row: &mut [u8]) -> RowAnswer
    requires { length row.old ≡ row_length settings.now }
    ensures { MendedRow settings.now.depth (C.Code.meaning code.now) row.old row.new result.altered result.valid }
{
    let depth = settings.depth();
    let mut altered = 0;
    let mut valid = Ok(());
    for word in 0..depth {
        match code.mend(row, depth, word) {
            Ok(count) => altered += count,
            Err(fault) => valid = valid.and(Err(RowFault { word, fault })),
        }
    }
    RowAnswer { altered, valid }
}
