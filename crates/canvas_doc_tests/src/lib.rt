//! Tests of documents: versions that share their records, changes in place, which record of a list
//! is at fault, what walks leave out, and want of memory. What a session can say is in the stored
//! sessions (`tests/sessions/`), and in random edits beside the plain models.
#![tactic(auto)]

#[cfg(test)]
mod asserts;
#[cfg(test)]
mod dice;
#[cfg(test)]
mod histories;
#[cfg(test)]
mod in_place;
#[cfg(test)]
mod memory;
#[cfg(test)]
mod positions;
#[cfg(test)]
mod samples;
#[cfg(test)]
mod saved;
#[cfg(test)]
mod sight;
