//! Tests of the parts of a node and of single nodes that are stepped by hand: stores, joins, casts and limiters, bodies and inputs. There is nothing here but tests.

#![tactic(auto)]

#[cfg(test)]
mod cast;
#[cfg(test)]
mod checks;
#[cfg(test)]
mod func;
#[cfg(test)]
mod join;
#[cfg(test)]
mod node;
#[cfg(test)]
mod store;
