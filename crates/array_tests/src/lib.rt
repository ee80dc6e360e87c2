//! Cells and frames, selection, boxes, digits and the table of all primitives, worked by hand from their
//! definitions.
#![tactic(auto)]

#[cfg(test)]
mod boxes;
#[cfg(test)]
mod digits;
#[cfg(test)]
mod frames;
#[cfg(test)]
mod items;
#[cfg(test)]
mod primitives;
#[cfg(test)]
mod selection;
