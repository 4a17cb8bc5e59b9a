// Feeding octet after octet.
ghost use Rattle.std.specs.Prelude.{◌≡◌, ◌<◌, true, length, bit_xor, slice_set};
ghost use Rattle.settings.specs.Lengths.{block_length};
ghost use Rattle.link.specs.declared.receiving.Mode.TheVariants.{Reading};
ghost use Rattle.link.specs.ReceiverFits.{mode_is_fit};
ghost use Rattle.link.specs.Rules.{block_ends};
ghost use Rattle.link.specs.Hearing.{DataRead, Heard, end_of};
ghost use Rattle.link.specs.FedOctets.{FedBy, report_in};

use crate::hearing::{hunt, judge};
use crate::line::Line;
use crate::{Lock, Mode, Report, Window};
use mapping::Mapping;
use settings::Settings;

// What stops a feed. No octet behind it is taken.
#[derive(Clone, Copy)]
pub enum Stop {
    // a marker is read
    Marker(Report),
    // a block ends; whether it is the first since the lock
    Block { first: bool },
}

// What a feed comes to: the octets taken, what stopped it if they did not just end, and the mode after.
#[derive(Clone, Copy)]
pub struct Feeding {
    pub taken: usize,
    pub stop: Option<Stop>,
    pub mode: Mode,
}

impl Feeding {
    // The report of the marker read, if one was.
    pub(crate) fn report(&self) -> Option<Report>
        ensures { result ≡ report_in self.now.stop }
    {
        match self.stop {
            Some(Stop::Marker(report)) => Some(report),
            _ => None,
        }
    }
}

// The end of a block in progress, if the next data octet is its last.
fn block_end(settings: &Settings, lock: Lock, place: usize) -> Option<Stop>
    ensures { result ≡ end_of (block_ends settings.now (Reading lock place)) lock.fresh }
{
    let ends = lock.filling
        && place >= settings.subframe_data() - 1
        && lock.count >= settings.subframes() - 1;
    ends.then_some(Stop::Block { first: lock.fresh })
}

// Kept: two facts stand in the contracts here. That the memory is of a block's length, as in `drawing`: the memory is the
// caller's and is handed to each call, so no value of ours holds it. That the mode fits: that is said of the settings, and no
// mode holds them; the rules make modes of any numbers.
impl<M: Mapping> Line<M> {
    // Puts a data octet, plus its mask, to its source.
    fn store_octet(&self, place: usize, memory: &mut [u8], octet: u8)
        requires memory_size { length memory.old ≡ block_length self.now.settings }
        requires within { place < block_length self.now.settings }
        ensures { memory.new ≡ slice_set memory.old ((M.Mapping.meaning self.now.mapping).source place) (bit_xor octet ((M.Mapping.meaning self.now.mapping).mask place)) }
    {
        let source = self.mapping.source(place).unwrap();
        memory[source] = octet ^ self.mapping.mask(place).unwrap();
    }

    // One data octet of a subframe: of a block in progress it is stored, else passed over.
    #[tactic(auto, using(crate::proofs::ModeFits::data_place))]
    fn read_data(&self, lock: Lock, place: usize, memory: &mut [u8], octet: u8) -> Mode
        requires memory_size { length memory.old ≡ block_length self.now.settings }
        requires fits { mode_is_fit self.now.settings (Reading lock place) ≡ true }
        ensures { DataRead self.now.settings (M.Mapping.meaning self.now.mapping) lock place memory.old octet result memory.new }
    {
        let size = self.settings.subframe_data();
        if lock.filling {
            self.store_octet(lock.count * size + place, memory, octet);
        }
        if place + 1 < size {
            Mode::Reading(lock, place + 1)
        } else {
            Mode::Checking(lock.next(&self.settings), Window::empty())
        }
    }

    // One octet, whatever the mode is: the mode after, and what stops the feed behind it, if anything does.
    fn hear(&self, mode: Mode, memory: &mut [u8], octet: u8) -> (Mode, Option<Stop>)
        requires memory_size { length memory.old ≡ block_length self.now.settings }
        requires fits { mode_is_fit self.now.settings mode ≡ true }
        ensures { Heard self.now.settings (M.Mapping.meaning self.now.mapping) mode memory.old octet result.0 result.1 memory.new }
    {
        match mode {
            Mode::Hunting(window) => {
                let (after, report) = hunt(&self.settings, window, octet);
                (after, report.map(Stop::Marker))
            }
            Mode::Reading(lock, place) => {
                let after = self.read_data(lock, place, memory, octet);
                (after, block_end(&self.settings, lock, place))
            }
            Mode::Checking(lock, window) => {
                let (after, report) = judge(&self.settings, lock, window, octet);
                (after, report.map(Stop::Marker))
            }
        }
    }

    // Goes through the octets one after the other. It stops behind the last one, behind a marker read, or behind the last
    // octet of a block in progress.
    pub(crate) fn feed(&self, start: Mode, memory: &mut [u8], input: &[u8]) -> Feeding
        requires memory_size { length memory.old ≡ block_length self.now.settings }
        requires fits { mode_is_fit self.now.settings start ≡ true }
        ensures { FedBy self.now.settings (M.Mapping.meaning self.now.mapping) start memory.old input.now result memory.new }
    {
        let mut mode = start;
        for (before, octet) in input.iter().enumerate() {
            let (after, stop) = self.hear(mode, memory, *octet);
            mode = after;
            if stop.is_some() {
                return Feeding {
                    taken: before + 1,
                    stop,
                    mode,
                };
            }
        }
        Feeding {
            taken: input.len(),
            stop: None,
            mode,
        }
    }
}
