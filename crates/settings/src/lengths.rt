// The lengths that follow from the settings.
ghost use Rattle.std.specs.Prelude.{◌≡◌};
ghost use Rattle.settings.specs.Lengths.{row_length, block_length, subframes, subframe_data, period, resync_length};

use crate::Settings;

impl Settings {
    // The octets of a row: `depth` words of 255.
    pub fn row_length(&self) -> usize
        ensures { result ≡ row_length self.now }
    {
        255 * self.depth
    }

    // The data octets of a block.
    pub fn block_length(&self) -> usize
        ensures { result ≡ block_length self.now }
    {
        self.row_length() * self.rows
    }

    // The subframes of a block.
    pub fn subframes(&self) -> usize
        ensures { result ≡ subframes self.now }
    {
        self.rows / self.subframe_rows
    }

    // The data octets of a subframe.
    pub fn subframe_data(&self) -> usize
        ensures { result ≡ subframe_data self.now }
    {
        self.row_length() * self.subframe_rows
    }

    // The octets of a subframe on the line, its marker counted.
    pub fn period(&self) -> usize
        ensures { result ≡ period self.now }
    {
        self.subframe_data() + 7
    }

    // The octets of the line that may pass until a receiver that slipped has found the markers again.
    pub fn resync_length(&self) -> usize
        ensures { result ≡ resync_length self.now }
    {
        self.miss_limit * self.period()
    }
}
