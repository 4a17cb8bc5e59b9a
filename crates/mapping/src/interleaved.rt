// The block and the stepped mapping.
ghost use Rattle.std.specs.Prelude.{◌≡◌, ◌<◌, true, false, MatchResult};
ghost use Rattle.mapping.specs.Answers.{source_answer};
ghost use Rattle.mapping.specs.Bulk.{StretchAnswer, WriteAnswer, StoreAnswer};
ghost use Rattle.mapping.specs.Interleaver.{block_of, stepped_of, columns, symbol_place, interleaved};
ghost use Rattle.mapping.specs.Refusal.{step_is_allowed, interleaver_is_allowed};
ghost use Rattle.mapping.specs.Laws.{interleaved_laws};

use crate::mapping::stretch_of;
use crate::walk::Walk;
use crate::{Interleaver, Mapping, MappingFault};
use settings::Settings;

// A fade is told for each reach up to this.
const MAX_REACH: usize = 16;

// The rows' symbols go to the line by turns, column after column; with a step, each row begins so many columns
// further on than the row before.
#[derive(Clone, Copy)]
pub struct Interleaved {
    pub(crate) settings: Settings,
    pub(crate) interleaver: Interleaver,
    ghost allowed: { interleaver_is_allowed interleaver ≡ true },
}

impl Interleaved {
    // The block mapping for these settings.
    pub fn block(settings: Settings) -> Interleaved
        ensures settings { result.settings ≡ settings }
        ensures meaning { ⟦<Interleaved as Mapping>⟧.meaning result ≡ block_of settings }
    {
        let interleaver = Interleaver::Block;
        Interleaved {
            settings,
            interleaver,
        }
    }

    // The stepped mapping for these settings; 6 unless the step is 1 to 255.
    pub fn stepped(settings: Settings, step: usize) -> Result<Interleaved, MappingFault>
        ensures { MatchResult result
            (λ m. (step_is_allowed step ≡ true) × (m.settings ≡ settings) × (m.interleaver ≡ Interleaver.Stepped step)
            × (⟦<Interleaved as Mapping>⟧.meaning m ≡ stepped_of settings step))
            (λ e. (step_is_allowed step ≡ false) × (e ≡ MappingFault.Step)) }
    {
        Interleaved::new(settings, Interleaver::Stepped(step))
    }

    // The mapping of these settings and this interleaver; 6 unless a step is 1 to 255.
    pub fn new(settings: Settings, interleaver: Interleaver) -> Result<Interleaved, MappingFault>
        ensures { MatchResult result
            (λ m. (interleaver_is_allowed interleaver ≡ true) × (m.settings ≡ settings) × (m.interleaver ≡ interleaver)
            × (⟦<Interleaved as Mapping>⟧.meaning m ≡ interleaved settings interleaver))
            (λ e. (interleaver_is_allowed interleaver ≡ false) × (e ≡ MappingFault.Step)) }
    {
        match interleaver {
            Interleaver::Stepped(step) if !(1..=255).contains(&step) => Err(MappingFault::Step),
            _ => Ok(Interleaved {
                settings,
                interleaver,
            }),
        }
    }

    // The memory place of an octet of the symbol in a column of a row.
    #[tactic(auto, using(crate::specs::Bounds::symbol_place_fits))]
    fn symbol_place(&self, row: usize, column: usize, octet: usize) -> usize
        requires row { row < self.now.settings.rows }
        requires column { column < columns self.now.settings.depth self.now.settings.symbol }
        requires octet { octet < self.now.settings.symbol }
        ensures { result ≡ symbol_place self.now.settings.depth self.now.settings.symbol row column octet }
    {
        row * self.settings.row_length() + column * self.settings.symbol() + octet
    }

    // How many octets a stretch takes that begins at line place `start` and has room for so many, or its refusal.
    fn stretch(&self, octets: usize, start: usize, room: usize) -> Result<usize, MappingFault>
        ensures { StretchAnswer (interleaved self.now.settings self.now.interleaver) octets start room result }
    {
        stretch_of(self.settings.block_length(), octets, start, room)
    }

    // From which memory place line place p comes, or the refusal.
    fn source_of(&self, p: usize) -> Result<usize, MappingFault>
        ensures { result ≡ source_answer (interleaved self.now.settings self.now.interleaver) p }
    {
        if p >= self.settings.block_length() {
            return Err(MappingFault::Place);
        }
        let symbol = self.settings.symbol();
        let rows = self.settings.rows();
        let row = p / symbol % rows;
        let turn = p / symbol / rows;
        let column = match self.interleaver {
            Interleaver::Block => turn,
            Interleaver::Stepped(step) => (turn + row * step)
                % (self.settings.row_length() / symbol),
        };
        Ok(self.symbol_place(row, column, p % symbol))
    }

    // Writes a stretch of the line, as `Mapping::write_line` says.
    fn write_stretch(
        &self,
        memory: &[u8],
        start: usize,
        out: &mut [u8],
    ) -> Result<usize, MappingFault>
        ensures { WriteAnswer (interleaved self.now.settings self.now.interleaver) memory.now start out.old out.new result }
    {
        let taken = self.stretch(memory.len(), start, out.len())?;
        let mut walk = Walk::along(self, start);
        for octet in &mut out[..taken] {
            *octet = memory[walk.place()];
            walk.advance();
        }
        Ok(taken)
    }

    // Stores a stretch of the line, as `Mapping::store_line` says.
    fn store_stretch(
        &self,
        memory: &mut [u8],
        start: usize,
        line: &[u8],
    ) -> Result<usize, MappingFault>
        ensures { StoreAnswer (interleaved self.now.settings self.now.interleaver) line.now start memory.old memory.new result }
    {
        let taken = self.stretch(memory.len(), start, line.len())?;
        let mut walk = Walk::along(self, start);
        for octet in &line[..taken] {
            memory[walk.place()] = *octet;
            walk.advance();
        }
        Ok(taken)
    }
}

// Thin over the calls above, so that a wrong argument here is refused for what it answers.
impl Mapping for Interleaved {
    ghost meaning = { λ x. interleaved x.settings x.interleaver };

    ghost lawful = { λ x. interleaved_laws x.settings x.interleaver };

    fn depth(&self) -> usize {
        self.settings.depth()
    }

    fn rows(&self) -> usize {
        self.settings.rows()
    }

    fn source(&self, p: usize) -> Result<usize, MappingFault> {
        self.source_of(p)
    }

    fn mask(&self, p: usize) -> Result<u8, MappingFault> {
        if p < self.settings.block_length() {
            Ok(0)
        } else {
            Err(MappingFault::Place)
        }
    }

    #[tactic(auto, using(crate::specs::Bounds::fade_fits))]
    fn fade(&self, reach: usize) -> Result<usize, MappingFault> {
        if reach > MAX_REACH {
            return Err(MappingFault::Reach);
        }
        let octets = reach * self.settings.depth();
        let symbol = self.settings.symbol();
        Ok(octets / symbol * self.settings.rows() * symbol + octets % symbol)
    }

    fn write_line(
        &self,
        memory: &[u8],
        start: usize,
        out: &mut [u8],
    ) -> Result<usize, MappingFault> {
        self.write_stretch(memory, start, out)
    }

    fn store_line(
        &self,
        memory: &mut [u8],
        start: usize,
        line: &[u8],
    ) -> Result<usize, MappingFault> {
        self.store_stretch(memory, start, line)
    }
}
