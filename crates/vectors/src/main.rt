// Prints digests of what rs16 makes of rows that a small generator fills, to be compared with another program's:
// at each depth those of 1,000 rows' syndromes, and of the rows encoded; and those of what mending altered words came to.
#![tactic(auto)]

use encoding::Encoding;
use mending::Mending;
use std::io;

mod digest;
mod encoding;
mod generator;
mod mending;

const DEPTHS: [usize; 6] = [1, 2, 3, 4, 5, 8];

// How many rows each digest is of.
const ROWS: usize = 1000;

// Prints the digests at one depth.
fn show_encoding(rt: &HostRuntime, depth: usize, row: &mut [u8]) -> io::Result<()> {
    let Encoding {
        syndromes,
        encoded,
        refused,
    } = Encoding::of_rows(row, depth);
    let syndromes = syndromes.value();
    let encoded = encoded.value();
    println!(rt;
        "depth {depth}: syndromes {syndromes:016x}, encoded {encoded:016x}, refused {refused}"
    )
}

// Prints what mending came to at one depth.
fn show_mending(rt: &HostRuntime, depth: usize, row: &mut [u8]) -> io::Result<()> {
    let Mending {
        answers,
        rows,
        mended,
        refused,
    } = Mending::of_rows(row, depth);
    let answers = answers.value();
    let rows = rows.value();
    println!(rt;
        "depth {depth}: answers {answers:016x}, mended {rows:016x}, words mended {mended}, refused {refused}"
    )
}

fn main(rt: HostRuntime) -> io::Result<()> {
    let mut memory = [0; 255 * 8];
    for depth in DEPTHS {
        show_encoding(&rt, depth, &mut memory[..255 * depth])?;
    }
    for depth in DEPTHS {
        show_mending(&rt, depth, &mut memory[..255 * depth])?;
    }
    Ok(())
}
