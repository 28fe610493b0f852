// corners: reads a carriage text from standard input and prints the account of the consignment, or why it is refused.
#![tactic(auto)]

use planner::answer_from;

fn main(rt: HostRuntime) -> anyhow::Result<()> {
    let answer = answer_from(rt.alloc(), rt.stdin())?;
    rt.print(answer.as_str())?;
    Ok(())
}
