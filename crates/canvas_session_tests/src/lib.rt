//! Tests of boards and sessions, over a document of one's own and over one that many share, and of
//! the numbers, the names and the texts of refusals.
#![tactic(auto)]

#[cfg(test)]
mod alone;
#[cfg(test)]
mod asserts;
#[cfg(test)]
mod boards;
#[cfg(test)]
mod dice;
#[cfg(test)]
mod exports;
#[cfg(test)]
mod fakes;
#[cfg(test)]
mod galleries;
#[cfg(test)]
mod kept;
#[cfg(test)]
mod memory;
#[cfg(test)]
mod sessions;
#[cfg(test)]
mod table;
#[cfg(test)]
mod viewers;
