// What is quoted for a link.
ghost use Rattle.std.specs.Prelude.{Some};
ghost use Rattle.promise.specs.Figures.{quote_text};

use std::fmt;

// Lengths in octets.
#[derive(Clone, Copy, Debug, PartialEq, Eq)]
pub struct Quote {
    // the information of one codeblock
    pub frame: usize,
    // the data of one block
    pub block: usize,
    // the longest fade, in data octets, that the link rides through
    pub fade: usize,
    // the line that may pass until a receiver that slipped is in step again
    pub resync: usize,
}

impl fmt::Display for Quote {
    ghost output = { λ q. Some (quote_text q) };

    fn fmt<W: fmt::Write>(&self, f: &mut fmt::Formatter<W>) -> fmt::Result {
        let Quote {
            frame,
            block,
            fade,
            resync,
        } = *self;
        write!(
            f,
            "(quote (frame {frame}) (block {block}) (fade {fade}) (resync {resync}))"
        )
    }
}
