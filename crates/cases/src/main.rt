// cases: prints, for each name that it is given, the name and what the planner answers to the text of NAME.txt.
#![tactic(auto)]

use planner::answer_from;
use std::{env, fs};

fn main(rt: HostRuntime) -> anyhow::Result<()> {
    // The first argument is the program's own name.
    for name in env::args(&rt)?.skip(1) {
        show(&rt, name.as_str())?;
    }
    Ok(())
}

// Prints the answer to one text under its name.
fn show(rt: &HostRuntime, name: &str) -> anyhow::Result<()> {
    let path = format!(in rt.alloc(); "{name}.txt")?;
    let answer = answer_from(rt.alloc(), fs::open(rt, path.as_str())?)?;
    print!(rt; "{name}\n{answer}")?;
    Ok(())
}
