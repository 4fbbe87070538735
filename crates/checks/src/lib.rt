// Examples of what contracts answer, grant and refuse.
#![tactic(auto)]

#[cfg(test)]
mod grants;
#[cfg(test)]
mod limits;
#[cfg(test)]
mod piles;
