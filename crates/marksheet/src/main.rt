// Marks a plan sheet: reads it from standard input and writes its listing to standard output.
#![tactic(auto)]

use listing::{ROOM, write_listing};
use sheet::{LONGEST_SHEET, list};
use std::io::{Read, Write};

fn run(rt: &HostRuntime) -> anyhow::Result<()> {
    let mut sheet: Vec<u8> = Vec::new(rt.alloc());
    // one byte more than a sheet may have is enough to see that it is too long
    rt.stdin()
        .take(LONGEST_SHEET as u64 + 1)
        .read_to_end(&mut sheet)?;
    let mut buffer = [0; ROOM];
    let count = match list(&sheet, &mut buffer) {
        Ok(count) => count,
        // not with so large a buffer; it is printed as every other refusal
        Err(refusal) => write_listing(&mut buffer, &Err(refusal)).unwrap_or(0),
    };
    rt.stdout().write_all(buffer.get(0..count).unwrap_or(&[]))?;
    Ok(())
}

fn main(rt: HostRuntime) -> anyhow::Result<()> {
    run(&rt)
}
