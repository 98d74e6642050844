//! Lists the sheets in data/ whose names standard input has, one to a line.
#![tactic(auto)]

use lines::listing::listing_text;
use std::{fs, io};

fn main(rt: HostRuntime) -> io::Result<()> {
    let heap = rt.alloc();
    for line in rt.lines(heap) {
        let name = line?;
        let sheet = fs::read(&rt, format!(in heap; "{name}.sheet")?)?;
        let text = listing_text(heap, &sheet)?;
        println!(rt; "== {name}")?;
        rt.print(&text)?;
    }
    Ok(())
}
