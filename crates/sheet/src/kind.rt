//! The kinds of entries that a sheet is made of.
ghost use Rattle.std.specs.Prelude.{◌≡◌, ok_or};
ghost use Rattle.sheet.specs.declared.fault.SheetFault.TheVariants.{UnknownKind};
ghost use Rattle.sheet.specs.Kinds.{kind_of, body_length, is_header};

use super::fault::SheetFault;

#[derive(Clone, Copy, PartialEq, Eq, Debug)]
pub enum Kind {
    Heads,
    Votes,
    Propose,
    Step,
    Plant,
    Deliver,
    Standing,
}

/// The kind that a letter stands for.
impl TryFrom<char> for Kind {
    type Error = SheetFault;

    ghost try_from_gives = { λ letter r. r ≡ ok_or (kind_of letter) UnknownKind };

    fn try_from(letter: char) -> Result<Kind, SheetFault> {
        match letter {
            'H' => Ok(Kind::Heads),
            'W' => Ok(Kind::Votes),
            'P' => Ok(Kind::Propose),
            'S' => Ok(Kind::Step),
            'F' => Ok(Kind::Plant),
            'D' => Ok(Kind::Deliver),
            'Q' => Ok(Kind::Standing),
            _ => Err(SheetFault::UnknownKind),
        }
    }
}

impl Kind {
    /// How many bytes follow the letter.
    pub fn body_length(self) -> usize
        ensures { result ≡ body_length self }
    {
        match self {
            Kind::Heads => 6,
            Kind::Votes => 39,
            Kind::Propose | Kind::Deliver => 2,
            Kind::Step | Kind::Standing => 1,
            Kind::Plant => 5,
        }
    }

    /// Whether such an entry begins a sheet.
    pub fn is_header(self) -> bool
        ensures { result ≡ is_header self }
    {
        matches!(self, Kind::Heads | Kind::Votes)
    }
}
