// What the search for a word's altered octets answers.
ghost use Rattle.std.specs.Prelude.{◌≡◌, ◌<◌, [], ◌∷◌, ◌++◌, length};

use std::marker::Model;
use std::ops::DerefSlice;

// The octet that a place of the word, 0 to 254, is to hold.
#[derive(Clone, Copy, Debug, Default, PartialEq, Eq)]
pub struct Correction {
    pub place: u8,
    pub octet: u8,
}

// Corrections of a word, their places rising. There is room for as many as the word has check octets.
// Kept: slots with a count beside them, which are Copy; the kit's list in fixed memory is not.
#[derive(Clone, Copy, Debug, PartialEq, Eq)]
pub struct Corrections {
    slots: [Correction; 32],
    count: u8,
}

impl Model for Corrections {
    ghost use Rattle.std.specs.Prelude.{List, length, take};
    ghost use Rattle.std.proofs.Math.Path.{ap₂};
    ghost use Rattle.rs16.specs.declared.corrections.Correction.{Correction};
    ghost use Rattle.rs16.specs.Slots.{slots_of, AreSlots, used_slots, used_count};

    ghost Value = { List Correction };

    ghost view = { λ c. take c.count c.slots };

    ghost invariant = { λ c. AreSlots c.slots c.count };

    ghost inverse = { λ cs. record { slots = slots_of cs; count = length cs } };

    ghost inverse_ok = { λ c are. ap₂ (λ slots count. record { slots = slots; count = count }) (used_slots c.slots c.count are) (used_count c.slots c.count are) };
}

impl Corrections {
    // None.
    pub fn new() -> Corrections
        ensures { result ≡ [] }
    {
        Corrections {
            slots: [Correction::default(); 32],
            count: 0,
        }
    }

    // How many there are.
    pub fn len(&self) -> usize
        ensures { result ≡ length self.now }
    {
        usize::from(self.count)
    }

    // One more, behind the others.
    pub(crate) fn push(&mut self, correction: Correction)
        requires { length self.old < 32 }
        ensures { self.new ≡ self.old ++ correction ∷ [] }
    {
        self.slots[self.count as usize] = correction;
        self.count += 1;
    }
}

// Seen as a slice, they are the list.
impl DerefSlice for Corrections {
    type Elem = Correction;

    ghost deref_gives = { λ corrections slice. slice ≡ corrections };

    fn deref(&self) -> &[Correction] {
        &self.slots[..self.len()]
    }
}
