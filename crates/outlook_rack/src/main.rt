// A dispatcher's evening: requested levels come in, one to a line, and the rack says what it grants, what can still
// come, and whether the contract was kept.
#![tactic(auto)]

use contract::Contract;
use desk::{answer_lines, exit_code, read_terms};
use evening::opening;
use outlook::{Evening, Reply};
use std::io::BufReader;
use std::process::ExitCode;

// How many slots the forecast at the end goes ahead.
const SLOTS_AHEAD: usize = 8;

// The worst that can still come, slot by slot.
fn show_forecast<C: Contract>(rt: &impl Print, evening: &Evening<C>) -> anyhow::Result<()> {
    let mut levels = [0; SLOTS_AHEAD];
    rt.println(evening.foresee(&mut levels)?)?;
    for (slot, level) in (1..).zip(&levels) {
        rt.println(Reply::Ahead(slot, *level))?;
    }
    Ok(())
}

fn run(rt: &HostRuntime) -> anyhow::Result<()> {
    let contract = read_terms(rt)?.agree()?;
    rt.println(opening(&contract))?;
    let mut evening = Evening::new(rt.alloc(), contract);
    let mut input = BufReader::new(rt.alloc(), rt.stdin())?;
    answer_lines(
        rt,
        &mut input,
        |count, line| Ok(evening.answer(count, line)?),
    )?;
    show_forecast(rt, &evening)?;
    rt.println(evening.end())?;
    rt.println(evening.judge())?;
    Ok(())
}

fn main(rt: HostRuntime) -> ExitCode {
    exit_code(&rt, run(&rt))
}
