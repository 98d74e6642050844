//! Takes from wires on which two sample codes wait, and prints the codes that come.
#![tactic(auto)]

ghost use Rattle.std.specs.Prelude.{◌≡◌};
ghost use Rattle.protocol.specs.Refusals.{answer, told};
ghost use Rattle.wire.specs.Refused.{refusal_of};
ghost use Rattle.takes.specs.Samples.{both_sent, both_questions, one_taken};

use protocol::refusal::Refusal;
use std::io;
use wire::bag::Bag;
use wire::codes::CODES;
use wire::counts::CountWire;
use wire::fault::WireFault;
use wire::meaning::Wire;
use wire::message::Message;

/// EST 1 of round 1 from 2 to 0.
const FIRST: u16 = 4097;

/// AUX 3 of round 2 from 1 to 3.
const SECOND: u16 = 2503;

/// Sends both codes and takes one: what a wire of any kind answers and leaves.
fn take_of_both<W: Wire>(wire: &mut W, k: u16) -> Result<u16, WireFault>
    ensures answer { told (λ x. x) refusal_of result ≡ answer (both_questions W.Wire.kind wire.old) (W.Wire.kind.pick (both_sent W.Wire.kind wire.old) k) }
    ensures after { wire.new ≡ one_taken W.Wire.kind wire.old k }
{
    W::keeps_laws();
    wire.send(FIRST)?;
    wire.send(SECOND)?;
    wire.take(k)
}

fn print_take<W: Wire>(rt: &HostRuntime, name: &str, wire: &mut W, k: u16) -> io::Result<()> {
    match take_of_both(wire, k) {
        Ok(code) => println!(rt; "{name}, {k}: {code}"),
        Err(fault) => {
            let refusal = Refusal::from(fault);
            println!(rt; "{name}, {k}: no {refusal}")
        }
    }
}

fn main(rt: HostRuntime) -> io::Result<()> {
    let heap = rt.alloc();
    let mut counts = vec![in heap; 7; usize::from(CODES)]?;
    for k in [0, 3000] {
        print_take(&rt, "count wire", &mut CountWire::new(&mut counts, 2), k)?;
    }
    let mut messages = vec![in heap; Message::with_code(7); 2]?;
    for k in [0, 2] {
        print_take(&rt, "bag", &mut Bag::new(&mut messages), k)?;
    }
    let mut one = [Message::with_code(7)];
    print_take(&rt, "bag with one place", &mut Bag::new(&mut one), 0)?;
    let mut short = [7; 16];
    print_take(
        &rt,
        "count wire over 16 counts",
        &mut CountWire::new(&mut short, 2),
        0,
    )
}
