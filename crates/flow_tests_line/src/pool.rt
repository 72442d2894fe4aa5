//! Pools in one thread and in two.
ghost use Rattle.std.specs.Prelude.{◌≡◌, ◌<◌, All, length};
ghost use Rattle.flow_pool.specs.Posts.{IsPostOf};

use crate::checks::{holds, none, number, some};
use flow_pool::{Pool, Post};
use std::alloc::Global;
use std::process::Abort;
use std::sync::Wait;
use std::thread;
use std::thread::Threads;

// A pool for the nodes below 1000, and its posts.
fn opened<R: Abort>(rt: &R, alloc: Global, posts: u32) -> (Pool, Vec<Post>)
    ensures { (result.0.nodes ≡ 1000) × (length result.1.items ≡ posts) × All (IsPostOf result.0) result.1.items }
{
    match Pool::new(alloc, posts, 1000) {
        Ok(made) => made,
        Err(_) => panic!(rt; "no memory for a pool"),
    }
}

// The last post.
fn last_post<R: Abort>(rt: &R, pool: &Pool, posts: &mut Vec<Post>) -> Post
    requires { All (IsPostOf pool.now) posts.old.items }
    ensures { All (IsPostOf pool.now) posts.new.items × IsPostOf pool.now result }
{
    match posts.pop() {
        Some(post) => post,
        None => panic!(rt; "no post is left"),
    }
}

// A node that is put into the empty pool comes out of it, at the post's own queue and at the entrance.
fn one_post_alone<R: Wait + Abort>(rt: &R, pool: &Pool, mut post: Post)
    requires { IsPostOf pool.now post × (pool.now.nodes ≡ 1000) }
{
    none(rt, pool.take(rt, &mut post));
    holds(rt, pool.push(&mut post, 3).is_ok());
    some(rt, pool.take(rt, &mut post), 3);
    holds(rt, pool.inject(rt, &mut post, 4).is_ok());
    some(rt, pool.take(rt, &mut post), 4);
    none(rt, pool.take(rt, &mut post));
}

#[test]
fn what_was_pushed_is_taken(rt: HostRuntime) {
    let (pool, mut posts) = opened(&rt, rt.alloc(), 1);
    let post = last_post(&rt, &pool, &mut posts);
    one_post_alone(&rt, &pool, post);
}

// The second post takes what the first one pushed, at its own queue and at the entrance.
fn two_posts_share<R: Wait + Abort>(rt: &R, pool: &Pool, mut first: Post, mut second: Post)
    requires { IsPostOf pool.now first × IsPostOf pool.now second × (pool.now.nodes ≡ 1000) }
{
    holds(rt, pool.push(&mut first, 3).is_ok());
    some(rt, pool.take(rt, &mut second), 3);
    holds(rt, pool.inject(rt, &mut first, 3).is_ok());
    some(rt, pool.take(rt, &mut second), 3);
    none(rt, pool.take(rt, &mut first));
    none(rt, pool.take(rt, &mut second));
}

#[test]
fn what_another_pushed_is_taken(rt: HostRuntime) {
    let (pool, mut posts) = opened(&rt, rt.alloc(), 2);
    let second = last_post(&rt, &pool, &mut posts);
    let first = last_post(&rt, &pool, &mut posts);
    two_posts_share(&rt, &pool, first, second);
}

// Of three posts, the middle one asks its own queue, the entrance, the last post and the first.
fn three_posts_in_turn<R: Wait + Abort>(
    rt: &R,
    pool: &Pool,
    mut first: Post,
    mut middle: Post,
    mut last: Post,
)
    requires { IsPostOf pool.now first × IsPostOf pool.now middle × IsPostOf pool.now last × (pool.now.nodes ≡ 1000) }
{
    holds(rt, pool.push(&mut first, 0).is_ok());
    holds(rt, pool.push(&mut last, 2).is_ok());
    holds(rt, pool.inject(rt, &mut first, 3).is_ok());
    holds(rt, pool.push(&mut middle, 1).is_ok());
    some(rt, pool.take(rt, &mut middle), 1);
    some(rt, pool.take(rt, &mut middle), 3);
    some(rt, pool.take(rt, &mut middle), 2);
    some(rt, pool.take(rt, &mut middle), 0);
    none(rt, pool.take(rt, &mut middle));
}

#[test]
fn queues_are_asked_in_turn(rt: HostRuntime) {
    let (pool, mut posts) = opened(&rt, rt.alloc(), 3);
    let last = last_post(&rt, &pool, &mut posts);
    let middle = last_post(&rt, &pool, &mut posts);
    let first = last_post(&rt, &pool, &mut posts);
    three_posts_in_turn(&rt, &pool, first, middle, last);
}

// A post in a thread, and the sum of the nodes that it took.
#[derive(Drop)]
struct Runner<'a> {
    pool: &'a Pool,
    post: Post,
    sum: u64,
    ghost here: { IsPostOf pool.now post × (pool.now.nodes ≡ 1000) },
}

impl<'a> Runner<'a> {
    // A node of the pool, which is known to have one.
    fn find<R: Wait>(&mut self, rt: &R) -> u32 {
        for _ in rt.forever() {
            if let Some(node) = self.pool.take(rt, &mut self.post) {
                return node;
            }
            thread::yield_now();
        }
        unreachable!()
    }

    // Puts a node in, into the one queue or the other.
    fn put<R: Wait>(&mut self, rt: &R, node: u32) -> bool
        requires { node < 1000 }
    {
        if node % 2 == 0 {
            self.pool.push(&mut self.post, node).is_ok()
        } else {
            self.pool.inject(rt, &mut self.post, node).is_ok()
        }
    }

    // Puts in each node a few times and takes as many.
    fn run<R: Wait>(&mut self, rt: &R) {
        for node in 0..1000 {
            if self.put(rt, node) {
                let found = self.find(rt);
                self.sum = self.sum.wrapping_add(u64::from(found));
            }
        }
    }
}

// A runner that took nothing so far.
fn fresh_runner<'a>(pool: &'a Pool, post: Post) -> Runner<'a>
    requires { IsPostOf pool.now post × (pool.now.nodes ≡ 1000) }
{
    Runner { pool, post, sum: 0 }
}

// Two posts in two threads: the nodes that they take are together those that they put in.
fn two_threads<R: Threads + Wait + Abort + Sync>(
    rt: &R,
    alloc: Global,
    pool: &Pool,
    first: Post,
    second: Post,
)
    requires { IsPostOf pool.now first × IsPostOf pool.now second × (pool.now.nodes ≡ 1000) }
{
    let mut runners = Vec::new(alloc);
    holds(rt, runners.push(fresh_runner(pool, first)).is_ok());
    holds(rt, runners.push(fresh_runner(pool, second)).is_ok());
    thread::for_each_mut(
        rt,
        runners.as_mut_slice(),
        2,
        &|_, runner: &mut Runner| { runner.run(rt) },
    );
    let mut sum = 0u64;
    for runner in &runners {
        sum = sum.wrapping_add(runner.sum);
    }
    number(rt, sum, 999000);
}

#[test]
fn two_threads_take_what_they_put_in(rt: HostRuntime) {
    let (pool, mut posts) = opened(&rt, rt.alloc(), 2);
    let second = last_post(&rt, &pool, &mut posts);
    let first = last_post(&rt, &pool, &mut posts);
    two_threads(&rt, rt.alloc(), &pool, first, second);
}
