// Holds the walk of the mappings against their sources one by one, over whole blocks of several settings;
// with an argument it times both instead.
#![tactic(auto)]

use mapping::Interleaver::{self, Block, Stepped};
use mapping::{Interleaved, MappingFault, Randomized};
use settings::Settings;
use std::{env, fmt, io};

mod compare;
mod timing;

use compare::{Verdict, compare, fill};
use timing::time_all;

// Figures of settings, and an interleaver.
#[derive(Clone, Copy)]
struct Case {
    depth: usize,
    rows: usize,
    symbol: usize,
    interleaver: Interleaver,
}

impl Case {
    fn of(depth: usize, rows: usize, symbol: usize, interleaver: Interleaver) -> Case {
        Case {
            depth,
            rows,
            symbol,
            interleaver,
        }
    }
}

// The numbers, and the step or 0.
// Kept: the stored output has 0 where the block mapping stands.
impl fmt::Display for Case {
    fn fmt<W: fmt::Write>(&self, f: &mut fmt::Formatter<W>) -> fmt::Result {
        let step = match self.interleaver {
            Block => 0,
            Stepped(step) => step,
        };
        write!(f, "{} {} {} {step}", self.depth, self.rows, self.symbol)
    }
}

fn cases() -> [Case; 9] {
    [
        Case::of(1, 2, 5, Block),
        Case::of(1, 2, 5, Stepped(1)),
        Case::of(5, 64, 5, Block),
        Case::of(5, 64, 5, Stepped(7)),
        Case::of(4, 10, 17, Stepped(61)),
        Case::of(2, 3, 255, Stepped(255)),
        Case::of(3, 1, 765, Stepped(2)),
        Case::of(8, 100, 1, Stepped(200)),
        Case::of(8, 512, 8, Block),
    ]
}

// The mapping of an interleaver, plain and under the randomizer.
fn verdicts(
    settings: Settings,
    interleaver: Interleaver,
    memory: &[u8],
    line: &mut [u8],
    other: &mut [u8],
) -> Result<(Verdict, Verdict), MappingFault> {
    let mapping = Interleaved::new(settings, interleaver)?;
    let plain = compare(&mapping, memory, line, other)?;
    let layered = compare(&Randomized::over(mapping), memory, line, other)?;
    Ok((plain, layered))
}

fn word(good: bool) -> &'static str {
    if good { "alike" } else { "NOT ALIKE" }
}

fn show(rt: &HostRuntime, case: Case) -> io::Result<()> {
    let Ok(settings) = Settings::new(case.depth, case.rows, case.symbol, 1, 1) else {
        return println!(rt; "{case}: settings refused");
    };
    let size = settings.block_length();
    let mut memory = vec![in rt.alloc(); 0u8; size]?;
    let mut line = vec![in rt.alloc(); 0u8; size]?;
    let mut other = vec![in rt.alloc(); 0u8; size]?;
    fill(&mut memory);
    match verdicts(settings, case.interleaver, &memory, &mut line, &mut other) {
        Ok((plain, layered)) => {
            let written = word(plain.alike && layered.alike);
            let stored = word(plain.back && layered.back);
            println!(rt;
                "{case}: {size} octets, {} {}, written {written}, stored {stored}",
                plain.checksum, layered.checksum
            )
        }
        Err(fault) => println!(rt; "{case}: refused {}", fault.number()),
    }
}

fn main(rt: HostRuntime) -> io::Result<()> {
    if env::args(&rt)?.count() > 1 {
        return time_all(&rt);
    }
    for case in cases() {
        show(&rt, case)?;
    }
    Ok(())
}
