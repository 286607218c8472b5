//! Tests of types of values as numbers, and of function types over them: tables of cases, whose answers are derived by hand.
//!
//! A case is a line of a text: the layers of types one after the other, each with the numbers of the types before it, and the numbers
//! that are wanted; or the types of a function's parameters and result, and what lifts ask of it, or the sizes of what it passes. Each
//! test states how many cases it has.
//!
//! - `putting`: layers of words, put into a table
//! - `labelling`: function types of words, put into a table
//! - `number_cases`: the numbers of types
//! - `doubled_cases`: types that share parts
//! - `func_cases`: what lifts ask of function types
//! - `passed_cases`: the types of what functions pass
#![tactic(auto)]

#[cfg(test)]
mod doubled_cases;
#[cfg(test)]
mod func_cases;
#[cfg(test)]
mod labelling;
#[cfg(test)]
mod number_cases;
#[cfg(test)]
mod passed_cases;
#[cfg(test)]
mod putting;
