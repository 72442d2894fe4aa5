//! Tests of the crates below: the line of a small machine, and the pool, in one thread and in several.
#![tactic(auto)]

#[cfg(test)]
mod checks;
#[cfg(test)]
mod line;
#[cfg(test)]
mod pool;
