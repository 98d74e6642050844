//! The lines of a listing.
ghost use Rattle.std.specs.Prelude.{◌≡◌, IfOk, Some, string_bytes};
ghost use Rattle.lines.specs.Lines.{fault_line, line_text, lines_text};

use protocol::refusal::Refusal;
use sheet::fault::PlacedFault;
use std::alloc::{AllocError, Global};
use std::fmt;

#[derive(Clone, Copy, PartialEq, Eq, Debug)]
pub enum Line {
    /// an entry that was carried out and has nothing more to tell
    // A letter and no kind, so that a line tells what stands in the sheet.
    Done { letter: char, place: usize },
    /// a refusal that ends the listing
    Fault { place: usize, refusal: Refusal },
    /// the sheet's end
    End { length: usize },
}

impl fmt::Display for Line {
    ghost output = { λ x. Some (line_text x) };

    fn fmt<W: fmt::Write>(&self, f: &mut fmt::Formatter<W>) -> fmt::Result {
        match self {
            Line::Done { letter, place } => write!(f, "{letter} {place} ok"),
            Line::Fault { place, refusal } => write!(f, "fault {place} {refusal}"),
            Line::End { length } => write!(f, "end {length}"),
        }
    }
}

/// The line with which a fault ends a listing.
impl From<PlacedFault> for Line {
    ghost from_gives = { λ fault line. line ≡ fault_line fault };

    fn from(fault: PlacedFault) -> Line {
        Line::Fault {
            place: fault.place,
            refusal: Refusal::from(fault.fault),
        }
    }
}

/// The lines as text, each with its end.
pub fn text(heap: Global, lines: &[Line]) -> Result<String, AllocError>
    ensures { IfOk result (λ s. string_bytes s ≡ lines_text lines.now) }
{
    let mut out = String::new(heap);
    // A `for` counts no index, and a closure would have to write to what it captures.
    for line in lines {
        writeln!(out, "{line}")?;
    }
    Ok(out)
}
