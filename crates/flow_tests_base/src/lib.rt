//! Tests of the crates below: bytes, values and events, shapes, sets of edges, ledgers.
#![tactic(auto)]

#[cfg(test)]
mod cache;
#[cfg(test)]
mod checks;
#[cfg(test)]
mod io;
#[cfg(test)]
mod item;
#[cfg(test)]
mod shape;
#[cfg(test)]
mod tally;
