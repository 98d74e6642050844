//! The bag: a wire that keeps its messages in a list, in the order in which they came.
ghost use Rattle.std.specs.Prelude.{◌≡◌, ◌<◌, ◌≤◌, length};
ghost use Rattle.protocol.specs.Wires.{WireLaws, waiting as all_waiting};
ghost use Rattle.wire.specs.Bags.{empty_bag, held as messages_held, moved_down, bag_kind};

use super::fault::WireFault;
use super::meaning::{Wire, capped};
use super::message::Message;

/// The first `waiting` of the messages wait, the oldest first; what stands after them means nothing.
// The caller lends the list, so a number beside it says how many of its messages wait.
#[derive(Drop)]
pub struct Bag<'a> {
    messages: &'a mut [Message],
    waiting: usize,
}

impl<'a> Bag<'a> {
    /// An empty bag over a list. Nothing is written.
    pub fn new(messages: &'a mut [Message]) -> Bag<'a>
        ensures { result ≡ empty_bag messages.entry }
    {
        Bag {
            messages,
            waiting: 0,
        }
    }

    /// How many messages there is room for.
    pub fn places(&self) -> usize
        ensures { result ≡ bag_kind.places self.now }
    {
        self.messages.len().min(65535)
    }

    /// How many messages wait.
    pub fn held(&self) -> usize
        ensures waits { result ≡ all_waiting (bag_kind.copies self.now) }
        ensures kept { result ≡ messages_held self.now }
    {
        self.waiting.min(self.places())
    }
}

/// Moves the messages after place i, up to place last, down by one.
// A loop, since `copy_within` copies each message field by field, which takes 1.6 times as long.
fn move_down(messages: &mut [Message], i: usize, last: usize)
    requires { (i ≤ last) × (last < length messages.old) }
    ensures { messages.new ≡ moved_down messages.old i last }
{
    for j in i..last {
        messages[j] = messages[j + 1];
    }
}

impl<'a> Wire for Bag<'a> {
    ghost kind = { bag_kind };

    fn keeps_laws()
        ensures { WireLaws bag_kind }
    {}

    fn waiting(&self) -> u16 {
        capped(self.held())
    }

    fn free(&self) -> u16 {
        capped(self.places() - self.held())
    }

    fn send(&mut self, code: u16) -> Result<(), WireFault> {
        self.may_send(code)?;
        let held = self.held();
        self.messages[held] = Message::with_code(code);
        self.waiting = held + 1;
        Ok(())
    }

    fn take(&mut self, k: u16) -> Result<u16, WireFault> {
        let held = self.held();
        if held == 0 {
            return Err(WireFault::Empty);
        }
        let i = usize::from(k) % held;
        let code = self.messages[i].code();
        move_down(self.messages, i, held - 1);
        self.waiting = held - 1;
        Ok(code)
    }
}
