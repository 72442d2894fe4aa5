//! Tests of the top calls over memory: `plain`, `check`, `gen`, and `run` on threads. They stand in a crate of their own,
//! so that the libraries aren't proved again for them.

#![tactic(auto)]

#[cfg(test)]
mod bodies;
#[cfg(test)]
mod called;
#[cfg(test)]
mod check;
#[cfg(test)]
mod generate;
#[cfg(test)]
mod overlap;
#[cfg(test)]
mod plain;
#[cfg(test)]
mod replay;
#[cfg(test)]
mod threads;
