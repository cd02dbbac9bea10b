//! Tests of the server, on threads and over the loopback, of the words that ask for it, and of the
//! texts of its faults.
#![tactic(auto)]

#[cfg(test)]
mod asserts;
#[cfg(test)]
mod crowd;
#[cfg(test)]
mod doors;
#[cfg(test)]
mod faults;
#[cfg(test)]
mod gates;
#[cfg(test)]
mod memory;
#[cfg(test)]
mod servers;
#[cfg(test)]
mod status;
#[cfg(test)]
mod words;
