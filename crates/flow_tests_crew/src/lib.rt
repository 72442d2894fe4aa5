//! Tests of graphs at work, by callers and workers one after the other and in several threads, and of whole runs. They
//! stand in a crate of their own, so that the libraries aren't proved again for them.

#![tactic(auto)]

#[cfg(test)]
mod crew;
#[cfg(test)]
mod crew_threads;
#[cfg(test)]
mod run;
#[cfg(test)]
mod trials;
