//! The two values that the processes choose between, and sets of them.

/// What the processes settle.
#[derive(Clone, Copy, PartialEq, Eq, Debug)]
pub enum Value {
    Hold,
    Release,
}

/// A set of values that is not empty.
#[derive(Clone, Copy, PartialEq, Eq, Debug)]
pub enum Values {
    Only(Value),
    Both,
}
