// Making a worst list, noting a record, and reading the records back.
ghost use Rattle.std.specs.Prelude.{◌≡◌, [], length};
ghost use Rattle.std.specs.declared.cmp.Ordering.{Ordering};
ghost use Rattle.worst.specs.List.{records_of, slots_of, Notes, KeepsWorst};
ghost use Rattle.worst.specs.Worst.{WorstOf};

use crate::WorstList;
use crate::insertion::insert;

impl<'a, T> WorstList<'a, T> {
    // The empty list over these slots, whatever they hold; they are left as they are.
    pub fn over(slots: &'a mut [T]) -> WorstList<'a, T>
        ensures empty { records_of result ≡ [] }
        ensures worst { (cmp : T → T → Ordering) → WorstOf cmp (length (slots_of result)) [] (records_of result) }
        ensures kept { slots_of result ≡ slots.old }
        ensures lent { result.slots.ghost_name ≡ slots.entry.ghost_name }
    {
        WorstList { slots, used: 0 }
    }

    // How many records there are.
    pub fn len(&self) -> usize
        ensures { result ≡ length (records_of self.now) }
    {
        self.used
    }

    // The records, greatest first.
    pub fn records(&self) -> &[T]
        ensures { result.now ≡ records_of self.now }
    {
        &self.slots[..self.used]
    }
}

impl<T: Ord + Copy> WorstList<'_, T> {
    // Puts the record in its place; the last goes where the slots are full. An equal record that is there leaves all as it is.
    // So a list that held the worst of some records holds the worst of these and the one noted. The slots stay those that were lent.
    pub fn note(&mut self, record: T)
        ensures told { Notes T.Ord.cmp «record» self.old self.new }
        ensures worst { KeepsWorst T.Ord.cmp «record» self.old self.new }
        ensures size { length (slots_of self.new) ≡ length (slots_of self.old) }
        ensures lent { self.new.slots.ghost_name ≡ self.old.slots.ghost_name }
    {
        self.used = insert(self.slots, self.used, record);
    }
}
