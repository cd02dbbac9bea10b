//! Lines: worked examples, settings, texts of refusals, want of memory, and twenty-four threads at one line.

#[cfg(test)]
mod editor;
#[cfg(test)]
mod faults;
#[cfg(test)]
mod memory;
#[cfg(test)]
mod recent;
#[cfg(test)]
mod replayed;
#[cfg(test)]
mod seats;
#[cfg(test)]
mod settings;
#[cfg(test)]
mod threads;
#[cfg(test)]
mod viewer;
#[cfg(test)]
mod worked;
