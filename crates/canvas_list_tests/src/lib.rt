//! Tests of lists that share their items, beside plain lists.
#![tactic(auto)]

#[cfg(test)]
mod asserts;
#[cfg(test)]
mod changes;
#[cfg(test)]
mod dice;
#[cfg(test)]
mod in_place;
#[cfg(test)]
mod made;
#[cfg(test)]
mod memory;
#[cfg(test)]
mod moves;
#[cfg(test)]
mod numbers;
#[cfg(test)]
mod passes;
#[cfg(test)]
mod picks;
#[cfg(test)]
mod reader;
#[cfg(test)]
mod together;
