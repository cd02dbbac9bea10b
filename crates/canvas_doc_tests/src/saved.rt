//! Saved documents, by their texts: which element is at fault, the room of a text, and want of memory.

#[cfg(test)]
mod asserts;
#[cfg(test)]
mod memory;
#[cfg(test)]
mod positions;
#[cfg(test)]
mod written;
