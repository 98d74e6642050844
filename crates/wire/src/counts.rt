//! The count wire: a wire that keeps a count for each code.
ghost use Rattle.std.specs.Prelude.{◌≡◌, ◌-◌, ◌<◌, ◌≤◌, length, ◌==◌};
ghost use Rattle.protocol.specs.Wires.{WireLaws, waiting as all_waiting, waiting_below};
ghost use Rattle.wire.specs.CountWires.{cleared, count_in, counts_of, counts_kind};
ghost use Rattle.wire.specs.PlainWires.{smallest, chosen as chosen_code};

use super::codes::CODES;
use super::fault::WireFault;
use super::meaning::{Wire, capped};

/// How many copies of each code wait, and the number of places. In memory of another length nothing waits, and there is no place.
// The caller lends the counts, so there may be more or fewer of them than codes.
#[derive(Drop)]
pub struct CountWire<'a> {
    counts: &'a mut [u16],
    places: u16,
}

/// The sum of some counts.
// In 32 bits, which it fits: in 64 it takes twice as long.
fn total(counts: &[u16]) -> u32
    requires { length counts.now ≤ 32768 }
    ensures { result ≡ waiting_below (count_in counts.now) (length counts.now) }
{
    counts.iter().map(|&count| u32::from(count)).sum()
}

/// The smallest waiting code that is at least `from`.
fn smallest_from(counts: &[u16], from: usize) -> Option<u16>
    requires { (length counts.now ≡ 32768) × (from < 32768) }
    ensures { result ≡ smallest (count_in counts.now) (32768 - from) from }
{
    // there are 32,768 counts, so `try_from` would have an error arm that never comes
    counts[from..]
        .iter()
        .position(|&count| count > 0)
        .map(|i| (from + i) as u16)
}

impl<'a> CountWire<'a> {
    /// An empty wire with some places. The counts are cleared; memory of another length is not written.
    pub fn new(counts: &'a mut [u16], places: u16) -> CountWire<'a>
        ensures { result ≡ cleared counts.entry places }
    {
        if counts.len() == usize::from(CODES) {
            counts.fill(0);
        }
        CountWire { counts, places }
    }

    /// Whether there is a count for each code.
    fn whole(&self) -> bool
        ensures { result ≡ (length self.now.counts.now == 32768) }
    {
        self.counts.len() == usize::from(CODES)
    }

    /// How many messages there is room for.
    pub fn places(&self) -> usize
        ensures { result ≡ counts_kind.places self.now }
    {
        usize::from(if self.whole() { self.places } else { 0 })
    }

    /// How many messages wait.
    pub fn held(&self) -> usize
        ensures { result ≡ all_waiting (counts_kind.copies self.now) }
    {
        // a `u32` fits a `usize`, though no `From` says so
        if self.whole() {
            total(self.counts) as usize
        } else {
            0
        }
    }

    /// The smallest waiting code that is at least k mod 32,768, or the smallest of all.
    fn chosen(&self, k: u16) -> Option<u16>
        ensures { result ≡ chosen_code (counts_of self.now) k }
    {
        if !self.whole() {
            return None;
        }
        smallest_from(self.counts, usize::from(k % CODES)).or_else(|| smallest_from(self.counts, 0))
    }
}

impl<'a> Wire for CountWire<'a> {
    ghost kind = { counts_kind };

    fn keeps_laws()
        ensures { WireLaws counts_kind }
    {}

    fn waiting(&self) -> u16 {
        capped(self.held())
    }

    fn free(&self) -> u16 {
        capped(self.places().saturating_sub(self.held()))
    }

    fn send(&mut self, code: u16) -> Result<(), WireFault> {
        self.may_send(code)?;
        self.counts[usize::from(code)] += 1;
        Ok(())
    }

    fn take(&mut self, k: u16) -> Result<u16, WireFault> {
        let code = self.chosen(k).ok_or(WireFault::Empty)?;
        self.counts[usize::from(code)] -= 1;
        Ok(code)
    }
}
