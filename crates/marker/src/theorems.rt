// What holds of all markers, and figures of the definitions.
ghost use Rattle.marker.specs.Theorems.{Figures, MarkerLaws};

// The figures of docs/FORMAT.md follow from the definitions.
pub fn figures_stand()
    ensures { Figures }
{}

// A marker is read back as it was written, and is told from all other octets.
pub fn marker_laws_stand()
    ensures { MarkerLaws }
{}
