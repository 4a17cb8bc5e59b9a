// What a line of the sheet asks for.
ghost use Rattle.settings.specs.Made.{Made};

use promise::CodeName;
use settings::{Settings, SettingsFault};

// The form of a line: a code and five typed numbers, in the order in which the line has them.
#[derive(Clone, Copy, Debug, PartialEq, Eq)]
pub struct LinkForm {
    pub code: CodeName,
    pub depth: usize,
    pub symbol: usize,
    pub rows: usize,
    pub subframe_rows: usize,
    pub miss_limit: usize,
}

// The settings with the form's numbers, or the first of their checks that fails.
impl TryFrom<&LinkForm> for Settings {
    type Error = SettingsFault;

    ghost try_from_gives = { λ form r. Made form.now.depth form.now.rows form.now.symbol form.now.subframe_rows form.now.miss_limit r };

    fn try_from(form: &LinkForm) -> Result<Settings, SettingsFault> {
        Settings::new(
            form.depth,
            form.rows,
            form.symbol,
            form.subframe_rows,
            form.miss_limit,
        )
    }
}
