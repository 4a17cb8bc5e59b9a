// Where a receiver is.
ghost use Rattle.std.specs.Prelude.{◌≡◌, ◌<◌, true};
ghost use Rattle.link.specs.ReceiverFits.{lock_is_fit};
ghost use Rattle.link.specs.Rules.{empty_window, with_octet, seven, latest_six, lock_at, onward, last_miss, judged_mode, judged_report, next_lock};

use crate::drawing::subframe_marker;
use crate::{Kind, Report};
use marker::{Cause, digits_apart};
use settings::Settings;

// Six places for octets of the line, the first `held` of them filled.
// Kept: a mode is Copy, and the kit's ArrayVec is not; a Model that shows a list of octets keeps both fields, and more to prove.
#[derive(Clone, Copy)]
pub struct Window {
    pub octets: [u8; 6],
    pub held: usize,
}

impl Window {
    // None is held.
    pub(crate) fn empty() -> Window
        ensures { result ≡ empty_window }
    {
        Window {
            octets: [0; 6],
            held: 0,
        }
    }

    // One octet more is held.
    pub(crate) fn with(mut self, octet: u8) -> Window
        requires { self.held < 6 }
        ensures { result ≡ with_octet self octet }
    {
        self.octets[self.held] = octet;
        self.held += 1;
        self
    }

    // The six octets held, and another.
    pub(crate) fn seven(self, octet: u8) -> [u8; 7]
        ensures { result ≡ seven self octet }
    {
        let [a, b, c, d, e, f] = self.octets;
        [a, b, c, d, e, f, octet]
    }

    // The latest six of these seven.
    pub(crate) fn latest_six(self, octet: u8) -> Window
        ensures { result ≡ latest_six self octet }
    {
        let [_, b, c, d, e, f] = self.octets;
        Window {
            octets: [b, c, d, e, f, octet],
            held: 6,
        }
    }
}

// What a locked receiver knows.
// Kept: here and in `hearing` the settings come beside it. A lock that held them would hold them a second time in every mode,
// beside those of the end, and a clause would have to say that they are the same.
#[derive(Clone, Copy)]
pub struct Lock {
    // the count of the subframe that it is in, or whose marker it is in
    pub count: usize,
    // the run of misses
    pub misses: usize,
    // a block is in progress; before the first count 0 there is none
    pub filling: bool,
    // no block has ended since the lock
    pub fresh: bool,
}

impl Lock {
    // Locked by the marker of this count.
    pub(crate) fn at(count: usize) -> Lock
        ensures { result ≡ lock_at count }
    {
        Lock {
            count,
            misses: 0,
            filling: count == 0,
            fresh: true,
        }
    }

    // Behind a marker of a lock that stays, with this run of misses.
    fn onward(self, misses: usize) -> Lock
        ensures { result ≡ onward self misses }
    {
        Lock {
            misses,
            filling: self.count == 0 || self.filling,
            ..self
        }
    }

    // Whether one miss more is the M-th in a row.
    fn last_miss(self, settings: &Settings) -> bool
        ensures { result ≡ last_miss settings.now self }
    {
        self.misses >= settings.miss_limit() - 1
    }

    // Where a receiver is behind seven octets that it took for a marker, by the first cause that they are not the one expected.
    pub(crate) fn judged_mode(self, settings: &Settings, cause: Option<Cause>) -> Mode
        ensures { result ≡ judged_mode settings.now self cause }
    {
        match cause {
            None => Mode::Reading(self.onward(0), 0),
            Some(_) if self.last_miss(settings) => Mode::Hunting(Window::empty()),
            Some(_) => Mode::Reading(self.onward(self.misses + 1), 0),
        }
    }

    // What is reported of them.
    pub(crate) fn judged_report(
        self,
        settings: &Settings,
        octets: &[u8; 7],
        cause: Option<Cause>,
    ) -> Report
        requires { lock_is_fit settings.now self ≡ true }
        ensures { result ≡ judged_report settings.now self octets.now cause }
    {
        let (kind, fell) = match cause {
            None => (Kind::Hit, false),
            Some(cause) => (Kind::Miss(cause), self.last_miss(settings)),
        };
        Report {
            kind,
            count: self.count,
            digits: digits_apart(octets, &subframe_marker(self.count)),
            fell,
        }
    }

    // Behind a subframe's data: the marker that is expected next.
    pub(crate) fn next(self, settings: &Settings) -> Lock
        ensures { result ≡ next_lock settings.now self }
    {
        if self.count < settings.subframes() - 1 {
            Lock {
                count: self.count + 1,
                ..self
            }
        } else {
            Lock {
                count: 0,
                filling: false,
                fresh: self.fresh && !self.filling,
                ..self
            }
        }
    }
}

// Hunting or locked.
#[derive(Clone, Copy)]
pub enum Mode {
    // hunting: the latest octets of the hunt, six at most
    Hunting(Window),
    // locked, in the data of a subframe: the data octets of it that are read
    Reading(Lock, usize),
    // locked, in the marker before a subframe: the octets of it that are read
    Checking(Lock, Window),
}

// Where it is on the line, and how far the block in the memory is handed on.
#[derive(Clone, Copy)]
pub struct ReceiverState {
    pub mode: Mode,
    // the rows of the block that are answered: all, where no frame waits
    // Kept: an Option of the rows that wait would lose the number of the last one, which show needs behind the next that answered it.
    pub answered: usize,
    // the block is the first after a lock
    pub first: bool,
    // the latest accepted call of feed and next was next
    pub after_next: bool,
}
