//! Tests of the book: its calls over one node, its events as commits of a line, and threads over two queues in a row.
#![tactic(auto)]

#[cfg(test)]
mod checks;
#[cfg(test)]
mod commits;
#[cfg(test)]
mod letters;
#[cfg(test)]
mod node;
#[cfg(test)]
mod row;
