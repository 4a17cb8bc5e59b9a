// A walk along the line places of the block and the stepped mapping, without a division for each place.
ghost use Rattle.std.specs.Prelude.{◌≡◌, ℕ, ◌+◌, ◌<◌, ◌≤◌};
ghost use Rattle.settings.specs.Lengths.{block_length};
ghost use Rattle.mapping.specs.Interleaver.{step_of};

use crate::{Interleaved, Interleaver};

// A line place: an octet of a symbol of a row. The numbers count octets.
#[derive(Clone, Copy)]
pub(crate) struct Walk {
    symbol: usize,
    row_length: usize,
    block: usize,
    // how far each row begins behind the row before
    shift: usize,
    // the octet in the symbol
    octet: usize,
    // where the row begins in the memory
    base: usize,
    // where row 0 is read in this turn of the rows
    first: usize,
    // where this row is read
    offset: usize,
    ghost symbol_small: { symbol ≤ row_length },
    ghost row_small: { row_length ≤ 2040 },
    ghost block_small: { block ≤ 8355840 },
    ghost shift_low: { shift < row_length },
    ghost octet_low: { octet < symbol },
    ghost base_low: { base < block },
    ghost first_low: { first < row_length },
    ghost offset_low: { offset < row_length },
}

impl Walk {
    ghost use Rattle.settings.specs.declared.Settings.{Settings as SettingsRecord};
    ghost use Rattle.mapping.specs.Walk.{At};

    // The walk of a mapping from line place p on.
    pub(crate) fn along(mapping: &Interleaved, p: usize) -> Walk
        requires { p < block_length mapping.now.settings }
        ensures { At mapping.now.settings (step_of mapping.now.interleaver) p result }
    {
        let settings = &mapping.settings;
        let symbol = settings.symbol();
        let rows = settings.rows();
        let row_length = settings.row_length();
        let columns = row_length / symbol;
        let row = p / symbol % rows;
        let round = p / symbol / rows;
        let first = round % columns * symbol;
        // The block mapping spends no division on a step: a stretch may be of one octet.
        let (shift, offset) = match mapping.interleaver {
            Interleaver::Block => (0, first),
            Interleaver::Stepped(step) => (
                step % columns * symbol,
                (round + row * step) % columns * symbol,
            ),
        };
        Walk {
            symbol,
            row_length,
            block: settings.block_length(),
            shift,
            octet: p % symbol,
            base: row * row_length,
            first,
            offset,
        }
    }

    // The memory place that this line place comes from.
    pub(crate) fn place(&self) -> usize
        ensures { result ≡ self.now.base + self.now.offset + self.now.octet }
    {
        self.base + self.offset + self.octet
    }

    // On to the next line place; behind the block's end the walk begins again.
    pub(crate) fn advance(&mut self)
        ensures { (s : SettingsRecord) (step p : ℕ) → At s step p self.old → At s step (p + 1) self.new }
    {
        if self.octet + 1 < self.symbol {
            self.octet += 1;
            return;
        }
        self.octet = 0;
        if self.base + self.row_length < self.block {
            self.base += self.row_length;
            let next = self.offset + self.shift;
            self.offset = if next < self.row_length {
                next
            } else {
                next - self.row_length
            };
            return;
        }
        self.base = 0;
        let next = self.first + self.symbol;
        let first = if next < self.row_length { next } else { 0 };
        self.first = first;
        self.offset = first;
    }
}
