// The program quote on a sheet of edges: its stdin has the ends of every range, spoiled forms and odd octets.
// Kept: a program is run on one stdin, so the other sheet takes a second one; what both do is `answer_input`.
#![tactic(auto)]

use sheet::answer_input;
use std::io;

fn main(rt: HostRuntime) -> io::Result<()> {
    answer_input(rt.alloc(), rt.stdin(), &mut io::writer(&rt))
}
