// Worst lists of what a receiver answered, worked out by hand.
use super::*;
use link::Kind;

fn report(count: usize, digits: usize) -> Option<Report> {
    Some(Report {
        kind: Kind::Hit,
        count,
        digits,
        fell: false,
    })
}

fn answer(row: usize, altered: usize) -> NextAnswer {
    NextAnswer {
        row,
        altered,
        gap: 1,
        valid: Ok(()),
    }
}

#[test]
fn markers_of_reports(rt: HostRuntime) {
    let mut slots = [MarkerRecord {
        digits: 0,
        count: 0,
    }; 2];
    let mut list = WorstList::over(&mut slots);
    for fed in [report(3, 1), None, report(7, 0), report(1, 5), report(1, 5)] {
        note_report(&mut list, fed);
    }
    let worst = [
        MarkerRecord {
            digits: 5,
            count: 1,
        },
        MarkerRecord {
            digits: 1,
            count: 3,
        },
    ];
    assert!(rt; list.records() == worst.as_slice());
}

#[test]
fn rows_of_answers(rt: HostRuntime) {
    let mut slots = [RowRecord { octets: 0, row: 0 }; 2];
    let mut list = WorstList::over(&mut slots);
    for (row, altered) in [(0, 2), (1, 16), (2, 0), (3, 2)] {
        note_next(&mut list, &answer(row, altered));
    }
    let worst = [
        RowRecord { octets: 16, row: 1 },
        RowRecord { octets: 2, row: 3 },
    ];
    assert!(rt; list.records() == worst.as_slice());
}
