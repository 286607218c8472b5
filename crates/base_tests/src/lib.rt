//! Tests of the base of every layer, and of files and outputs as values.
//!
//! A case is a line or a paragraph of a text: what is given, and the answer that is wanted. Each test states how many
//! cases it has.
//!
//! - `numbers`: numbers and names
//! - `windows`: parts of files, call by call
//! - `format` and `formats`: a small format of a few kinds of items, and its readings
//! - `lists`: names that stand twice, look-ups, rules, states and texts of lists, over the `samples`
//! - `files`: sources and sinks
//! - `values`: lists, places and fuel
//! - `texts` and `why`: answers as texts with the parts of a line, and the reasons of the tests
#![tactic(auto)]

#[cfg(test)]
mod files;
#[cfg(test)]
mod format;
#[cfg(test)]
mod formats;
#[cfg(test)]
mod lists;
#[cfg(test)]
mod numbers;
#[cfg(test)]
mod samples;
#[cfg(test)]
mod texts;
#[cfg(test)]
mod values;
#[cfg(test)]
mod why;
#[cfg(test)]
mod windows;
