// Examples of what forecasts, verdicts and curves tell.
#![tactic(auto)]

#[cfg(test)]
mod curves;
#[cfg(test)]
mod forecasts;
#[cfg(test)]
mod samples;
#[cfg(test)]
mod verdicts;
