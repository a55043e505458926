// The lines of a capture.
ghost use Rattle.std.specs.Prelude.{◌≡◌};
ghost use Rattle.captures.specs.Lines.{text_of, line_values, read_line, read_crc};

use super::check::Checks;
use super::hex::word;
use terms::failure::Cause;

// What is wrong with a line.
#[derive(Clone, Copy)]
pub enum LineFault {
    // the first line is not two identifiers
    NoIdentifiers,
    // the line begins with none of the words that are known
    NoKind,
    // a value is not hexadecimal digits, or not as many as it has to be
    NotHex,
}

impl Cause for LineFault {}

// A line of a capture. Bytes are still the text that writes them.
#[derive(Clone, Copy)]
pub enum Line<'a> {
    // an empty line, or a note for the reader
    Note,
    Frame(&'a [u8]),
    Packet(&'a [u8]),
    // a string with the two checks that it should have
    Crc { checks: Checks, bytes: &'a [u8] },
}

// A line without the LF that ends it.
pub fn without_end(line: &[u8]) -> &[u8]
    ensures { result.now ≡ text_of line.now }
{
    line.strip_suffix(b"\n").unwrap_or(line)
}

// Two words of eight digits, each with a space behind it, and then the bytes.
fn crc_in(text: &[u8]) -> Result<Line<'_>, LineFault>
    ensures { line_values result ≡ read_crc text.now }
{
    if text.len() < 18 || text[8] != b' ' || text[17] != b' ' {
        return Err(LineFault::NotHex);
    }
    let checks = Checks {
        first: word(&text[..8])?,
        second: word(&text[9..17])?,
    };
    Ok(Line::Crc {
        checks,
        bytes: &text[18..],
    })
}

impl<'a> Line<'a> {
    // Reads a line, without the LF that ends it.
    pub fn read(line: &'a [u8]) -> Result<Line<'a>, LineFault>
        ensures { line_values result ≡ read_line line.now }
    {
        if let [] | [b'#', ..] = line {
            return Ok(Line::Note);
        }
        if let Some(text) = line.strip_prefix(b"frame ") {
            return Ok(Line::Frame(text));
        }
        if let Some(text) = line.strip_prefix(b"packet ") {
            return Ok(Line::Packet(text));
        }
        if let Some(text) = line.strip_prefix(b"crc ") {
            return crc_in(text);
        }
        Err(LineFault::NoKind)
    }
}
