// Answers the quote sheet that stands on standard input.
#![tactic(auto)]

use sheet::answer_input;
use std::io;

fn main(rt: HostRuntime) -> io::Result<()> {
    answer_input(rt.alloc(), rt.stdin(), &mut io::writer(&rt))
}
