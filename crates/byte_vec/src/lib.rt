//! A list of at most N bytes that lies in the value itself, is copied with it, and equals any other with the same bytes.
#![tactic(auto)]

/// A list of bytes in fixed memory.
pub mod byte_vec;
