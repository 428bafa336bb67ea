//! Tests of what no line of text can ask, by public names: orders, builders, memory and writers
//! that fail, filters with a state, programs. This crate has no code of its own.
//!
//! A test makes its values and asks them in small calls that answer yes or no, and fails once, by
//! `wanted`. No call lets a value of a large type go where its scope ends: see `wanted`.
#![tactic(auto)]

#[cfg(test)]
mod attachments;
#[cfg(test)]
mod counted;
#[cfg(test)]
mod envelopes;
#[cfg(test)]
mod errors;
#[cfg(test)]
mod filters;
#[cfg(test)]
mod forwarding;
#[cfg(test)]
mod frames;
#[cfg(test)]
mod guide;
#[cfg(test)]
mod indexed;
#[cfg(test)]
mod ledgers;
#[cfg(test)]
mod losses;
#[cfg(test)]
mod main_path;
#[cfg(test)]
mod urls;
#[cfg(test)]
mod values;
#[cfg(test)]
mod wanted;
#[cfg(test)]
mod writers;
