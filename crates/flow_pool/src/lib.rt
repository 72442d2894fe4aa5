//! Where workers and callers put the nodes that have work, and find them.
//!
//! Each worker and each caller has a post with a queue of its own. A worker puts a node into its own queue, and a
//! caller into the entrance, a queue that all posts share. Who looks for work asks its own queue first, then the
//! entrance, and then the queue of every other post once.
//!
//! ```text
//!   post 0        post 1        post 2          entrance
//!   ┌───────┐     ┌───────┐     ┌───────┐      ┌───────┐
//!   │ 7 4 4 │     │       │     │ 9     │      │ 3     │ ◄── inject, by any post
//!   └───────┘     └───────┘     └───────┘      └───────┘
//!   push, take    take ──────── asks: its own, the entrance, post 2, post 0
//! ```
//!
//! A node may stand in the pool more than once. For each queue and each node, the copies in it and those that all posts
//! took from it are together those that all posts pushed to it, at every moment. What a post pushed to a queue and took
//! from it is its hand there: it is in the proofs alone.
#![tactic(auto)]

mod deque;
mod entrance;
mod hand;
mod law;
mod open;
mod pool;
mod post;

pub use hand::{Fair, Hand};
pub use law::who_is_alone_took_all;
pub use pool::Pool;
pub use post::Post;
