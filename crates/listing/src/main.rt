//! Reads a sheet from standard input and prints its listing.
#![tactic(auto)]

use lines::listing::{LONGEST, listing_text};
use std::io;
use std::io::Read;

fn main(rt: HostRuntime) -> io::Result<()> {
    let heap = rt.alloc();
    let mut sheet = Vec::new(heap);
    // One byte more than a sheet may have shows that it is too long; nothing after that is read.
    // `as`, since `u64` has no `From<usize>`; it is proved to lose nothing.
    let _ = rt.stdin().take(LONGEST as u64 + 1).read_to_end(&mut sheet)?;
    let text = listing_text(heap, &sheet)?;
    rt.write_all(text.as_bytes())
}
