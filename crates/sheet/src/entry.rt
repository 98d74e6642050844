//! Reading an entry: its bytes, its kind, and whether it is whole.
ghost use Rattle.std.specs.Prelude.{◌≡◌, ◌+◌, ◌^◌, ◌<◌, Some};
ghost use Rattle.sheet.specs.Bytes.{byte, word};
ghost use Rattle.sheet.specs.Faults.{refusal_of};
ghost use Rattle.sheet.specs.Kinds.{kind_of};
ghost use Rattle.sheet.specs.Entries.{entry_questions, whole};
ghost use Rattle.protocol.specs.Refusals.{answer, told};

use super::fault::SheetFault;
use super::kind::Kind;

/// An entry of a sheet.
#[derive(Clone, Copy)]
pub struct Entry<'a> {
    sheet: &'a [u8],
    /// where it begins
    place: usize,
}

impl<'a> Entry<'a> {
    /// The entry that begins at a place.
    pub fn at(sheet: &'a [u8], place: usize) -> Entry<'a>
        ensures sheet { result.sheet.now ≡ sheet.now }
        ensures place { result.place ≡ place }
    {
        Entry { sheet, place }
    }

    /// The byte at an offset from the entry's beginning, or 0 past the sheet's end.
    pub fn byte(&self, offset: usize) -> u8
        ensures { result ≡ byte self.now.sheet.now (self.now.place + offset) }
    {
        let place = self.place.saturating_add(offset);
        self.sheet.get(place).copied().unwrap_or(0)
    }

    /// The letter that the entry begins with.
    pub fn letter(&self) -> char
        ensures { result ≡ byte self.now.sheet.now self.now.place }
    {
        char::from(self.byte(0))
    }

    /// The two bytes from an offset on, the high one first.
    pub(crate) fn word(&self, offset: usize) -> u16
        requires { offset < 2 ^ 32 }
        ensures { result ≡ word self.now.sheet.now (self.now.place + offset) }
    {
        u16::from_be_bytes([self.byte(offset), self.byte(offset + 1)])
    }

    /// The kind of the entry, if it may stand at its place and is whole.
    pub fn kind(&self) -> Result<Kind, SheetFault>
        ensures { told Some refusal_of result ≡ answer (entry_questions self.now.sheet.now self.now.place) (kind_of (byte self.now.sheet.now self.now.place)) }
    {
        let kind = Kind::try_from(self.letter());
        // A `match`, since with `is_ok_and` the call takes 1.7 times as long.
        let header = match kind {
            Ok(kind) => kind.is_header(),
            Err(_) => false,
        };
        if self.place == 0 && !header {
            return Err(SheetFault::FirstKind);
        }
        if self.place > 0 && header {
            return Err(SheetFault::LaterKind);
        }
        let kind = kind?;
        if !self.is_whole(kind) {
            return Err(SheetFault::Short);
        }
        Ok(kind)
    }

    fn is_whole(&self, kind: Kind) -> bool
        ensures { result ≡ whole self.now.sheet.now self.now.place (Some kind) }
    {
        self.sheet.len().saturating_sub(self.place) > kind.body_length()
    }
}
