// The orders of the two kinds of record, in numbers, and that the order of noting is of no account.
ghost use Rattle.std.specs.Prelude.{◌≡◌};
ghost use Rattle.worst.specs.Order.{row_order, marker_order, TotalOrder};
ghost use Rattle.worst.specs.Worst.{OneWorst};

use crate::{MarkerRecord, RowRecord};

// Of rows more octets altered are worse, and of as many the later row; of markers more digits wrong, and of as many the higher
// count. These are total orders, and what `note` goes by.
pub fn orders_stand()
    ensures rows { TotalOrder row_order }
    ensures markers { TotalOrder marker_order }
    ensures rows_noted { ⟦<RowRecord as Ord>⟧.cmp ≡ row_order }
    ensures markers_noted { ⟦<MarkerRecord as Ord>⟧.cmp ≡ marker_order }
{}

// The same rows or markers, noted in whatever order and however often, give the same list.
pub fn lists_agree()
    ensures rows { OneWorst row_order }
    ensures markers { OneWorst marker_order }
{}
