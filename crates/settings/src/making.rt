// Making a settings record, and reading its numbers back.
ghost use Rattle.std.specs.Prelude.{◌≡◌};
ghost use Rattle.settings.specs.Allowed.{depth_is_allowed};
ghost use Rattle.settings.specs.Made.{Made};

use crate::{Settings, SettingsFault};

// Whether a row may have so many words.
pub fn depth_is_allowed(depth: usize) -> bool
    ensures { result ≡ depth_is_allowed depth }
{
    matches!(depth, 1..=5 | 8)
}

impl Settings {
    // The record with just these numbers, or the first check that fails: depth (1), rows (2), symbol (3),
    // subframe rows (4), miss limit (5).
    pub fn new(
        depth: usize,
        rows: usize,
        symbol: usize,
        subframe_rows: usize,
        miss_limit: usize,
    ) -> Result<Settings, SettingsFault>
        ensures { Made depth rows symbol subframe_rows miss_limit result }
    {
        if !depth_is_allowed(depth) {
            return Err(SettingsFault::Depth);
        }
        if !(1..=4096).contains(&rows) {
            return Err(SettingsFault::Rows);
        }
        if symbol < 1 || 255 * depth % symbol != 0 {
            return Err(SettingsFault::Symbol);
        }
        if subframe_rows < 1 || rows % subframe_rows != 0 {
            return Err(SettingsFault::SubframeRows);
        }
        if !(1..=255).contains(&miss_limit) {
            return Err(SettingsFault::MissLimit);
        }
        Ok(Settings {
            depth,
            rows,
            symbol,
            subframe_rows,
            miss_limit,
        })
    }

    pub fn depth(&self) -> usize
        ensures { result ≡ self.now.depth }
    {
        self.depth
    }

    pub fn rows(&self) -> usize
        ensures { result ≡ self.now.rows }
    {
        self.rows
    }

    pub fn symbol(&self) -> usize
        ensures { result ≡ self.now.symbol }
    {
        self.symbol
    }

    pub fn subframe_rows(&self) -> usize
        ensures { result ≡ self.now.subframe_rows }
    {
        self.subframe_rows
    }

    pub fn miss_limit(&self) -> usize
        ensures { result ≡ self.now.miss_limit }
    {
        self.miss_limit
    }
}
