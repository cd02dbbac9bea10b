//! Tests of scenes, strips and workers, of images, of lists of events, and of lines. Colours are told
//! by the stored sessions (`tests/sessions/`).
#![tactic(auto)]

#[cfg(test)]
mod asserts;
#[cfg(test)]
mod gates;
#[cfg(test)]
mod images;
#[cfg(test)]
mod lines;
#[cfg(test)]
mod memory;
#[cfg(test)]
mod painting;
#[cfg(test)]
mod pictures;
#[cfg(test)]
mod rows;
#[cfg(test)]
mod shapes;
#[cfg(test)]
mod walks;
