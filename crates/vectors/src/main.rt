//! Runs the texts of an independent implementation and compares what is printed. The map's totals are not printed yet, so
//! an accepted text is compared up to them.
#![tactic(auto)]

use std::env::Env;
use std::fs::Files;
use std::{env, fs};
use transcript::program::run;

// Whether what was printed is what was expected, up to the totals of the map.
fn agrees(printed: &[u8], expected: &[u8]) -> bool {
    let Some(rest) = expected.strip_prefix(printed) else {
        return false;
    };
    if printed.starts_with(b"refused line\n") {
        return rest.is_empty();
    }
    rest.starts_with(b"\nreadable writable\n")
}

fn try_one(rt: &(impl Files + AllocGlobal), name: &str) -> anyhow::Result<bool> {
    let text = fs::read(rt, format!(in rt.alloc(); "{name}.in")?.as_str())?;
    let expected = fs::read(rt, format!(in rt.alloc(); "{name}.out")?.as_str())?;
    let printed = run(rt.alloc(), &text)?;
    Ok(agrees(printed.as_bytes(), &expected))
}

fn try_all(rt: &(impl Files + Env + Print + AllocGlobal)) -> anyhow::Result<()> {
    let mut tried = 0u32;
    let mut agreed = 0u32;
    for name in env::args(rt)?.skip(1) {
        tried = tried.saturating_add(1);
        if try_one(rt, name.as_str())? {
            agreed = agreed.saturating_add(1);
        } else {
            println!(rt; "{name} differs")?;
        }
    }
    println!(rt; "{agreed} of {tried} vectors agree, up to the map's totals")?;
    Ok(())
}

fn main(rt: HostRuntime) -> anyhow::Result<()> {
    try_all(&rt)
}
