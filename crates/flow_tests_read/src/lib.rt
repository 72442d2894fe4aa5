//! Tests of bodies, of what documents mean, and of how they are read. They stand in a crate of their own so that the
//! libraries aren't proved again for them.

#![tactic(auto)]

#[cfg(test)]
mod body;
#[cfg(test)]
mod limits;
#[cfg(test)]
mod meaning;
#[cfg(test)]
mod read;
#[cfg(test)]
mod told;
#[cfg(test)]
mod values;
