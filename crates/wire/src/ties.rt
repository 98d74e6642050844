//! The two kinds of wire as plain values, each statement as the contract of a function that does nothing else.
ghost use Rattle.protocol.specs.Wires.{WireLaws, Seen};
ghost use Rattle.wire.specs.PlainWires.{plain_bag, plain_counts};
ghost use Rattle.wire.specs.Bags.{bag_kind, row, ListsCodes};
ghost use Rattle.wire.specs.Smallest.{TakesSmallest};
ghost use Rattle.wire.specs.CountWires.{counts_kind, pool_of};

/// A bag is seen as the row of its waiting messages: sending and taking agree. It lists their codes.
pub fn bag_seen_as_row()
    ensures row { Seen bag_kind plain_bag row }
    ensures codes { ListsCodes }
{}

/// A count wire is seen as its counts: sending and taking agree.
pub fn count_wire_seen_as_counts()
    ensures { Seen counts_kind plain_counts pool_of }
{}

/// The plain kinds keep the laws of a wire too.
pub fn plain_wires_keep_laws()
    ensures bag { WireLaws plain_bag }
    ensures counts { WireLaws plain_counts }
{}

/// A count wire takes the smallest waiting code that is at least k mod 32,768, or the smallest of all.
pub fn counts_take_smallest()
    ensures { TakesSmallest }
{}
