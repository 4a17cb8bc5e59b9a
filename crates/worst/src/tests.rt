// Worst lists worked out by hand.
use super::*;

fn row(octets: usize, row: usize) -> RowRecord {
    RowRecord { octets, row }
}

fn marker(digits: usize, count: usize) -> MarkerRecord {
    MarkerRecord { digits, count }
}

// Whether a list over these slots holds just `want` once the rows are noted one after the other.
fn rows_give(slots: &mut [RowRecord], rows: &[RowRecord], want: &[RowRecord]) -> bool {
    let mut list = WorstList::over(slots);
    for r in rows {
        list.note(*r);
    }
    list.len() == want.len() && list.records() == want
}

#[test]
fn full_slots_drop_the_last(rt: HostRuntime) {
    let rows = [row(4, 7), row(9, 2), row(4, 8), row(5, 0), row(1, 99)];
    let mut slots = [row(0, 0); 3];
    assert!(rt; rows_give(&mut slots, &rows[..3], &[row(9, 2), row(4, 8), row(4, 7)]));
    assert!(rt; rows_give(&mut slots, &rows[..4], &[row(9, 2), row(5, 0), row(4, 8)]));
    assert!(rt; rows_give(&mut slots, &rows, &[row(9, 2), row(5, 0), row(4, 8)]));
}

#[test]
fn an_equal_record_leaves_the_list_alone(rt: HostRuntime) {
    let mut slots = [row(8, 8); 3];
    let rows = [row(3, 1), row(2, 1), row(3, 1), row(2, 1)];
    assert!(rt; rows_give(&mut slots, &rows, &[row(3, 1), row(2, 1)]));
    assert!(rt; slots == [row(3, 1), row(2, 1), row(8, 8)]);
}

#[test]
fn no_slot_and_one_slot(rt: HostRuntime) {
    let rows = [row(1, 1), row(2, 0), row(1, 5)];
    assert!(rt; rows_give(&mut [row(0, 0); 0], &rows, &[]));
    assert!(rt; rows_give(&mut [row(7, 7); 1], &rows, &[row(2, 0)]));
}

#[test]
fn the_order_of_noting_is_of_no_account(rt: HostRuntime) {
    let (a, b, c) = (row(3, 4), row(6, 0), row(3, 5));
    for rows in [
        [a, b, c],
        [a, c, b],
        [b, a, c],
        [b, c, a],
        [c, a, b],
        [c, b, a],
    ] {
        assert!(rt; rows_give(&mut [row(0, 0); 2], &rows, &[b, c]));
    }
}

#[test]
fn markers_by_digits_then_count(rt: HostRuntime) {
    let mut slots = [marker(0, 0); 4];
    let mut list = WorstList::over(&mut slots);
    list.note(marker(2, 9));
    list.note(marker(10, 0));
    list.note(marker(2, 10));
    let worst = [marker(10, 0), marker(2, 10), marker(2, 9)];
    assert!(rt; list.records() == worst.as_slice());
}
