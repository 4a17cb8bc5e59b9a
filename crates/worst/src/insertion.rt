// Insertion into the list at the front of a slice.
ghost use Rattle.std.specs.Prelude.{◌≡◌, ◌<◌, ◌≤◌, length, take};
ghost use Rattle.worst.specs.Noted.{noted};
ghost use Rattle.worst.specs.Place.{place, Within, put, Stands};

use std::cmp::Ordering;

// Where the record belongs in a list that descends, or None where an equal one is met first.
fn find_place<T: Ord>(list: &[T], record: &T) -> Option<usize>
    ensures within { Within result (length list.now) }
    ensures told { result ≡ place T.Ord.cmp 0 «record».now list.now }
{
    for (i, held) in list.iter().enumerate() {
        match record.cmp(held) {
            Ordering::Less => {}
            Ordering::Equal => return None,
            Ordering::Greater => return Some(i),
        }
    }
    Some(list.len())
}

// Puts the record at i, moves what stood from there on by one, and lets the last go.
fn put_in<T: Copy>(list: &mut [T], i: usize, record: T)
    requires { i < length list.old }
    ensures { list.new ≡ put list.old i «record» }
{
    let part = &mut list[i..];
    part.rotate_right(1);
    list[i] = record;
}

// Notes the record in the list that stands in the first n of the slots, and answers how many records there are then.
pub(crate) fn insert<T: Ord + Copy>(slots: &mut [T], n: usize, record: T) -> usize
    requires { n ≤ length slots.old }
    ensures { Stands (noted T.Ord.cmp (length slots.old) «record» (take n slots.old)) slots.old slots.new result }
{
    let Some(i) = find_place(&slots[..n], &record) else {
        return n;
    };
    let m = if n < slots.len() { n + 1 } else { n };
    if i < m {
        put_in(&mut slots[..m], i, record);
    }
    m
}
