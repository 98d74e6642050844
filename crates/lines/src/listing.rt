//! The listing of a sheet: its lines, and their text.
ghost use Rattle.std.specs.Prelude.{◌≡◌, ◌+◌, List, IfOk, Some, string_bytes};
ghost use Rattle.std.specs.Option.{option_to_list};
ghost use Rattle.lines.specs.declared.line.Line.{Line as LineOf};
ghost use Rattle.sheet.specs.Bytes.{byte};
ghost use Rattle.sheet.specs.Kinds.{kind_of};
ghost use Rattle.lines.specs.Lines.{either_lines, lines_text};
ghost use Rattle.lines.specs.Listing.{listing, admitted, later};

use super::line::{Line, text};
use sheet::entry::Entry;
use sheet::fault::{PlacedFault, SheetFault, placed};
use sheet::header::Header;
use sheet::kind::Kind;
use std::alloc::{AllocError, Global};

/// The most bytes that a sheet may have.
pub const LONGEST: usize = 32768;

/// The text that is printed for a sheet.
pub fn listing_text(heap: Global, sheet: &[u8]) -> Result<String, AllocError>
    ensures { IfOk result (λ s. string_bytes s ≡ lines_text (listing sheet.now)) }
{
    let lines = lines_of(heap, sheet)?;
    text(heap, &lines)
}

fn lines_of(heap: Global, sheet: &[u8]) -> Result<Vec<Line>, AllocError>
    ensures { IfOk result (λ v. v.items ≡ listing sheet.now) }
{
    match admit(sheet) {
        Err(fault) => Ok(vec![in heap; Line::from(fault)]?),
        Ok(kind) => {
            let letter = Entry::at(sheet, 0).letter();
            let mut lines = vec![in heap; Line::Done { letter, place: 0 }]?;
            if let Some(line) = line_at(sheet, 1 + kind.body_length()) {
                lines.push(line)?;
            }
            Ok(lines)
        }
    }
}

/// The kind of the header, if the sheet is short enough and its header is good.
fn admit(sheet: &[u8]) -> Result<Kind, PlacedFault>
    ensures lines { (ls : List LineOf) → either_lines result ls ≡ admitted sheet.now ls }
    ensures kind { IfOk result (λ k. kind_of (byte sheet.now 0) ≡ Some k) }
{
    if sheet.len() > LONGEST {
        return Err(PlacedFault {
            place: LONGEST,
            fault: SheetFault::TooLong,
        });
    }
    let header = placed(0, Header::read(sheet))?;
    placed(0, header.judge())?;
    Ok(header.kind())
}

/// The line at a place after the header, if one is known there.
fn line_at(sheet: &[u8], place: usize) -> Option<Line>
    ensures { option_to_list result ≡ later sheet.now place }
{
    let length = sheet.len();
    if place >= length {
        return Some(Line::End { length });
    }
    let fault = placed(place, Entry::at(sheet, place).kind()).err()?;
    Some(Line::from(fault))
}
