// The first line of a capture: who talks to whom.
ghost use Rattle.std.specs.Prelude.{◌≡◌, length};
ghost use Rattle.captures.specs.Lines.{identifier_value, read_parties};

use super::hex::word;
use super::line::LineFault;
use terms::identifier::Identifier;
use terms::sides::Sides;

#[derive(Clone, Copy)]
pub struct Parties {
    pub identifiers: Sides<Identifier>,
}

// Sixteen digits.
fn identifier(text: &[u8]) -> Result<Identifier, LineFault>
    requires { length text.now ≡ 16 }
    ensures { result ≡ identifier_value text.now }
{
    let first = word(&text[..8])?;
    let second = word(&text[8..])?;
    Ok(Identifier { first, second })
}

impl Parties {
    // Reads the first line: the identifiers of initiator and responder, sixteen digits each, with a space between.
    pub fn read(line: &[u8]) -> Result<Parties, LineFault>
        ensures { result ≡ read_parties line.now }
    {
        if line.len() != 33 || line[16] != b' ' {
            return Err(LineFault::NoIdentifiers);
        }
        let initiator = identifier(&line[..16])?;
        let responder = identifier(&line[17..])?;
        Ok(Parties {
            identifiers: Sides {
                initiator,
                responder,
            },
        })
    }
}
