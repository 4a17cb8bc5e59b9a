// Why a settings record is refused.
ghost use Rattle.std.specs.Prelude.{◌≡◌};
ghost use Rattle.settings.specs.Refusal.{number};

// The number that is not allowed. The checks run in this order.
#[derive(Clone, Copy, Debug, PartialEq, Eq)]
pub enum SettingsFault {
    Depth,
    Rows,
    Symbol,
    SubframeRows,
    MissLimit,
}

impl SettingsFault {
    // The refusal's number: 1 to 5.
    // Kept: refusals are told by their numbers, which docs/CALLS.md lists.
    pub fn number(&self) -> usize
        ensures { result ≡ number self.now }
    {
        match *self {
            SettingsFault::Depth => 1,
            SettingsFault::Rows => 2,
            SettingsFault::Symbol => 3,
            SettingsFault::SubframeRows => 4,
            SettingsFault::MissLimit => 5,
        }
    }
}
