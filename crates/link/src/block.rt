// The rows of a block's memory.
ghost use Rattle.std.specs.Prelude.{◌≡◌, ◌+◌, ◌*◌, ◌<◌, ◌≤◌};
ghost use Rattle.settings.specs.Lengths.{row_length, block_length};

use settings::Settings;

// Where a row begins; it ends within the block.
pub(crate) fn row_start(settings: &Settings, row: usize) -> usize
    requires { row < settings.now.rows }
    ensures begins { result ≡ row * row_length settings.now }
    ensures ends { result + row_length settings.now ≤ block_length settings.now }
{
    row * settings.row_length()
}
