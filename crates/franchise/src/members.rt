//! Sets of at most 16 processes.
ghost use Rattle.std.specs.Prelude.{◌≡◌, if◌then◌else◌, nat_lt, count_by};
ghost use Rattle.std.specs.List.{range_with_len};
ghost use Rattle.protocol.specs.Sets.{empty as no_process, joined, either, bits as set_bits};
ghost use Rattle.franchise.specs.Marks.{set_of, nobody, with_mark, united};

use std::array;

#[derive(Clone, Copy, PartialEq, Eq, Debug)]
pub struct Members {
    marks: [bool; 16],
}

impl Members {
    /// The empty set.
    pub fn empty() -> Members
        ensures value { result ≡ nobody }
        ensures members { set_of result ≡ no_process }
    {
        Members { marks: [false; 16] }
    }

    /// The processes whose bits are set: process i has the weight 2 to the power i.
    // By name, since `from` would not say that the number is read by its bits.
    pub fn from_bits(bits: u16) -> Members
        ensures members { set_of result ≡ set_bits bits }
    {
        Members {
            marks: array::from_fn(|i| (bits >> i) % 2 == 1),
        }
    }

    /// Whether a process is in the set. No process from 16 on is.
    pub fn contains(&self, process: u8) -> bool
        ensures { result ≡ set_of self.now process }
    {
        self.marks
            .get(usize::from(process))
            .copied()
            .unwrap_or(false)
    }

    /// How many of the processes below a number are in the set.
    pub fn count_below(&self, end: u8) -> usize
        ensures { result ≡ count_by (set_of self.now) (range_with_len 0 end) }
    {
        let mut count = 0;
        // A loop, since `filter` and `count` make the answers of heads take twelve times as long.
        for process in 0..end {
            if self.contains(process) {
                count += 1;
            }
        }
        count
    }

    /// Puts a process into the set. A process from 16 on changes nothing.
    pub fn insert(&mut self, process: u8)
        ensures value { self.new ≡ with_mark self.old process }
        ensures members { set_of self.new ≡ (if nat_lt process 16 then joined (set_of self.old) process else set_of self.old) }
    {
        // A write through `get_mut` of an array is not proved to reach the array.
        if process < 16 {
            self.marks[usize::from(process)] = true;
        }
    }

    /// The processes that are in one of the two.
    pub fn union(&self, other: &Members) -> Members
        ensures value { result ≡ united self.now other.now }
        ensures members { set_of result ≡ either (set_of self.now) (set_of other.now) }
    {
        Members {
            marks: array::from_fn(|i| self.marks[i] || other.marks[i]),
        }
    }
}
