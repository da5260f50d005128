//! Tests of the links. They show what no contract says: each call succeeds with ample memory, and a link carries values
//! between two threads that run at the same time. Each is one function over [`Link`](gg_link::Link), called for the
//! ring and for the queue.

mod calls;
mod held;
mod threads;
