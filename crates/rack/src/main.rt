// A dispatcher's evening: requested levels come in, one to a line, and the rack says what it grants.
#![tactic(auto)]

use desk::{answer_lines, exit_code, read_terms};
use evening::{Evening, opening};
use std::io::BufReader;
use std::process::ExitCode;

fn run(rt: &HostRuntime) -> anyhow::Result<()> {
    let contract = read_terms(rt)?.agree()?;
    rt.println(opening(&contract))?;
    let mut evening = Evening::new(contract);
    let mut input = BufReader::new(rt.alloc(), rt.stdin())?;
    answer_lines(
        rt,
        &mut input,
        |count, line| Ok(evening.answer(count, line)),
    )?;
    rt.println(evening.end())?;
    Ok(())
}

fn main(rt: HostRuntime) -> ExitCode {
    exit_code(&rt, run(&rt))
}
