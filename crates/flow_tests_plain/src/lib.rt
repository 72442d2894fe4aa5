//! Tests of reports and of runs on one thread. They stand in a crate of their own so that the libraries aren't proved again
//! for them.

#![tactic(auto)]

#[cfg(test)]
mod print;
#[cfg(test)]
mod told;
#[cfg(test)]
mod work;
