// Division by the generator, on line octets: the check octets of information octets, and the remainder of a word.
ghost use Rattle.std.specs.Prelude.{◌≡◌};
ghost use Rattle.rs16.specs.Division.{checks, residue};

use crate::rows::Row;
use std::array;

// The check octets that make information octets a codeword.
pub(crate) fn checks_of(information: &[u8]) -> [u8; 32]
    ensures { result ≡ checks information.now }
{
    let mut r = Row::default();
    for octet in information {
        r = r.divided(*octet);
    }
    r.octets()
}

// The remainder of a word, which is 0 for a codeword.
pub(crate) fn residue_of(word: &[u8; 255]) -> [u8; 32]
    ensures { result ≡ residue word.now }
{
    let checks = checks_of(&word[..223]);
    array::from_fn(|k| checks[k] ^ word[223 + k])
}
