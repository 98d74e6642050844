//! A refusal: the number of the question that was answered no, and the layer where it was asked.
ghost use Rattle.std.specs.Prelude.{Some};
ghost use Rattle.protocol.specs.Refusals.{layer_text, refusal_text};

use std::fmt;

/// Where a refusal arises.
#[derive(Clone, Copy, PartialEq, Eq, Debug)]
pub enum Layer {
    Wire,
    Franchise,
    Roll,
    Run,
    Sheet,
}

/// What a call answers that is refused. It is carried up unchanged.
#[derive(Clone, Copy, PartialEq, Eq, Debug)]
pub struct Refusal {
    // A number and no enum, since the rules number the questions, and this is what is printed.
    pub number: u8,
    pub layer: Layer,
}

impl fmt::Display for Layer {
    ghost output = { λ x. Some (layer_text x) };

    fn fmt<W: fmt::Write>(&self, f: &mut fmt::Formatter<W>) -> fmt::Result {
        f.write_str(match self {
            Layer::Wire => "wire",
            Layer::Franchise => "franchise",
            Layer::Roll => "roll",
            Layer::Run => "run",
            Layer::Sheet => "sheet",
        })
    }
}

impl fmt::Display for Refusal {
    ghost output = { λ x. Some (refusal_text x) };

    fn fmt<W: fmt::Write>(&self, f: &mut fmt::Formatter<W>) -> fmt::Result {
        let Refusal { number, layer } = self;
        write!(f, "{number} {layer}")
    }
}
