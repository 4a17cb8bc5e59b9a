// The settings of a link. No value of this type lies outside the ranges that docs/FORMAT.md lists.
#![tactic(auto)]

ghost use Rattle.std.specs.Prelude.{◌≡◌, true};
ghost use Rattle.settings.specs.Allowed.{depth_is_allowed, rows_are_allowed, symbol_is_allowed, subframe_rows_are_allowed, miss_limit_is_allowed};

mod fault;
mod lengths;
mod making;

pub use fault::SettingsFault;
pub use making::depth_is_allowed;

// What both ends of a link agree on; each number is in its range.
#[derive(Clone, Copy)]
pub struct Settings {
    // words woven into a row
    depth: usize,
    // rows of a block
    rows: usize,
    // octets of an interleaver's symbol
    symbol: usize,
    // rows of a subframe
    subframe_rows: usize,
    // misses in a row that drop lock
    miss_limit: usize,
    ghost depth_allowed: { depth_is_allowed depth ≡ true },
    ghost rows_allowed: { rows_are_allowed rows ≡ true },
    ghost symbol_allowed: { symbol_is_allowed depth symbol ≡ true },
    ghost subframe_rows_allowed: { subframe_rows_are_allowed rows subframe_rows ≡ true },
    ghost miss_limit_allowed: { miss_limit_is_allowed miss_limit ≡ true },
}

#[cfg(test)]
mod tests {
    use super::*;
    use std::test::Fail;

    // The number of the refusal, if these numbers are refused.
    fn refusal(
        depth: usize,
        rows: usize,
        symbol: usize,
        subframe_rows: usize,
        miss_limit: usize,
    ) -> Option<usize> {
        let made = Settings::new(depth, rows, symbol, subframe_rows, miss_limit);
        made.err().map(|fault| fault.number())
    }

    #[test]
    fn edges_of_the_ranges(rt: HostRuntime) {
        assert_eq!(rt; refusal(5, 4_096, 5, 1, 1), None);
        assert_eq!(rt; refusal(5, 0, 5, 1, 1), Some(2));
        assert_eq!(rt; refusal(5, 4_097, 5, 1, 1), Some(2));
        assert_eq!(rt; refusal(6, 1, 1, 1, 1), Some(1));
        assert_eq!(rt; refusal(0, 0, 0, 0, 0), Some(1));
        assert_eq!(rt; refusal(8, 1, 2_041, 1, 1), Some(3));
        assert_eq!(rt; refusal(8, 1, 2_040, 2, 1), Some(4));
        assert_eq!(rt; refusal(8, 1, 2_040, 1, 256), Some(5));
    }

    #[test]
    fn lengths_of_a_link(rt: HostRuntime) -> Result<(), Fail> {
        let Ok(s) = Settings::new(5, 64, 5, 8, 3) else {
            return Err(Fail::new("refused"));
        };
        assert_eq!(rt; s.block_length(), 81_600);
        assert_eq!(rt; s.subframes(), 8);
        assert_eq!(rt; s.subframe_data(), 10_200);
        assert_eq!(rt; s.period(), 10_207);
        assert_eq!(rt; s.resync_length(), 30_621);
        Ok(())
    }
}
