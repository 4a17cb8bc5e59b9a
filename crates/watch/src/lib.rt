// Watching a link: what the receiver answers is noted in worst lists, markers by their wrong digits and rows by their altered octets.
#![tactic(auto)]

ghost use Rattle.watch.specs.Watched.{MarkerNoted, RowNoted};

use link::{NextAnswer, Report};
use worst::{MarkerRecord, RowRecord, WorstList};

#[cfg(test)]
mod tests;

// Kept: a report and an answer are of one crate and a record is of another, so no From between them can stand here.

// Notes the marker that feed reports: its wrong digits, and its count. Where feed has no report, nothing is noted.
pub fn note_report(markers: &mut WorstList<'_, MarkerRecord>, report: Option<Report>)
    ensures { MarkerNoted report markers.old markers.new }
{
    if let Some(read) = report {
        markers.note(MarkerRecord {
            digits: read.digits,
            count: read.count,
        });
    }
}

// Notes the row that next answers: its altered octets, and its number. A row that is not valid is noted like any other.
pub fn note_next(rows: &mut WorstList<'_, RowRecord>, answer: &NextAnswer)
    ensures { RowNoted answer.now rows.old rows.new }
{
    rows.note(RowRecord {
        octets: answer.altered,
        row: answer.row,
    });
}
