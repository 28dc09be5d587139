//! Reads a plan and a trace from standard input and prints the answers. Nothing else is done here.
#![tactic(auto)]

use std::io;
use std::io::Read;
use transcript::program::run;

// One byte more than a text may have: with it the text is known to be too long, and the rest is left unread.
const ENOUGH: u64 = 32769;

// Standard input, up to as many bytes as are needed.
fn read_input(rt: &(impl Input + AllocGlobal)) -> io::Result<Vec<u8>> {
    let mut text = Vec::new(rt.alloc());
    rt.reader().take(ENOUGH).read_to_end(&mut text)?;
    Ok(text)
}

fn main(rt: HostRuntime) -> anyhow::Result<()> {
    let text = read_input(&rt)?;
    let printed = run(rt.alloc(), &text)?;
    print!(rt; "{printed}")?;
    Ok(())
}
