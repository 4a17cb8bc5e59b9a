// How long the line of a whole block takes, place by place and by the walk.
use crate::compare::{fill, store_in_stretches, write_by_place, write_in_stretches};
use mapping::{Interleaved, Mapping, Randomized};
use settings::Settings;
use std::io;
use std::time::{Duration, Instant};

// What is timed, and over how many octets at a time.
const ROUNDS: usize = 8;

const STRETCH: usize = 4096;

// How long so many rounds of a call take.
#[inline(always)]
fn time_of<F: FnMut() + Drop>(rt: &HostRuntime, mut call: F) -> io::Result<Duration>
    requires { F.IsAlwaysCallable call }
{
    let start = Instant::now(rt)?;
    for _ in 0..ROUNDS {
        call();
    }
    start.elapsed(rt)
}

// Prints the nanoseconds of each way over ROUNDS blocks. Inlined, as is the call above, so that each mapping is timed in loops of its own.
#[inline(always)]
fn time_mapping<M: Mapping>(
    rt: &HostRuntime,
    name: &str,
    mapping: &M,
    memory: &mut [u8],
    line: &mut [u8],
) -> io::Result<()> {
    let by_place = time_of(rt, || {
        let _ = write_by_place(mapping, memory, line);
    })?;
    let written = time_of(rt, || {
        let _ = write_in_stretches(mapping, memory, line, STRETCH);
    })?;
    let stored = time_of(rt, || {
        let _ = store_in_stretches(mapping, memory, line, STRETCH);
    })?;
    let octets = line.len();
    println!(rt;
        "{name}: {ROUNDS} blocks of {octets} octets, by place {by_place:?}, written {written:?}, stored {stored:?}"
    )
}

fn time_settings(rt: &HostRuntime, settings: Settings) -> io::Result<()> {
    let size = settings.block_length();
    let mut memory = vec![in rt.alloc(); 0u8; size]?;
    let mut line = vec![in rt.alloc(); 0u8; size]?;
    fill(&mut memory);
    let block = Interleaved::block(settings);
    time_mapping(rt, "block", &block, &mut memory, &mut line)?;
    let layered = Randomized::over(block);
    time_mapping(rt, "block randomized", &layered, &mut memory, &mut line)?;
    if let Ok(stepped) = Interleaved::stepped(settings, 7) {
        time_mapping(rt, "stepped", &stepped, &mut memory, &mut line)?;
    }
    Ok(())
}

// Times blocks of about a million octets with small and large symbols.
pub(crate) fn time_all(rt: &HostRuntime) -> io::Result<()> {
    for symbol in [1, 5, 51, 1275] {
        if let Ok(settings) = Settings::new(5, 800, symbol, 8, 3) {
            println!(rt; "depth 5, rows 800, symbol {symbol}")?;
            time_settings(rt, settings)?;
        }
    }
    Ok(())
}
