//! The kinds of wire that a header names.
ghost use Rattle.std.specs.Prelude.{◌≡◌};
ghost use Rattle.sheet.specs.WireKinds.{wire_kind};

/// What carries the messages of a run.
#[derive(Clone, Copy, PartialEq, Eq, Debug)]
pub enum WireKind {
    Bag,
    Counts,
}

/// A byte that names no kind of wire.
#[derive(Clone, Copy, PartialEq, Eq, Debug)]
pub struct UnknownWire {
    pub byte: u8,
}

/// The kind of wire that a byte names.
impl TryFrom<u8> for WireKind {
    type Error = UnknownWire;

    ghost try_from_gives = { λ byte r. r ≡ wire_kind byte };

    fn try_from(byte: u8) -> Result<WireKind, UnknownWire> {
        match byte {
            0 => Ok(WireKind::Bag),
            1 => Ok(WireKind::Counts),
            _ => Err(UnknownWire { byte }),
        }
    }
}
