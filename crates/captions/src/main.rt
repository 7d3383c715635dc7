//! Runs a script of calls on a caption card, and prints what each call answered.
#![tactic(auto)]

mod answer;
mod choices;
mod lent;
mod line;
mod session;
mod words;

use answer::{NoAnswer, Tally};
use session::Session;
use std::io::Read;

// Whether a line is passed over: one that is empty, or a remark.
fn is_remark(line: &[u8]) -> bool {
    matches!(line, [] | [b'#', ..])
}

// Answers one line, prints the answer and counts it.
fn run_one(
    rt: &HostRuntime,
    session: &mut Session,
    line: &[u8],
    tally: &mut Tally,
) -> anyhow::Result<()> {
    let outcome = session.run(line);
    tally.count(&outcome);
    match outcome {
        Ok(answer) => rt.println(answer)?,
        Err(NoAnswer::NoMemory(error)) => return Err(error.into()),
        Err(reason) => rt.println(reason)?,
    }
    Ok(())
}

// Runs the lines in turn.
fn run_script(rt: &HostRuntime, script: &[u8]) -> anyhow::Result<Tally> {
    let mut session = Session::new(rt.alloc())?;
    let mut tally = Tally::default();
    for line in script.split(|byte| *byte == b'\n') {
        if !is_remark(line) {
            run_one(rt, &mut session, line, &mut tally)?;
        }
    }
    Ok(tally)
}

fn main(rt: HostRuntime) -> anyhow::Result<()> {
    let mut script = Vec::new(rt.alloc());
    rt.stdin().read_to_end(&mut script)?;
    let tally = run_script(&rt, script.as_slice())?;
    rt.println(tally)?;
    Ok(())
}
