//! Tests of codes, keys, the plane, shapes, and requests and replies, by what these crates offer to callers.
#![tactic(auto)]

#[cfg(test)]
mod asserts;
#[cfg(test)]
mod codes;
#[cfg(test)]
mod edits;
#[cfg(test)]
mod key_rows;
#[cfg(test)]
mod keys;
#[cfg(test)]
mod memory;
#[cfg(test)]
mod plane;
#[cfg(test)]
mod random_leaves;
#[cfg(test)]
mod replies;
#[cfg(test)]
mod shapes;
