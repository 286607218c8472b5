//! Every run of six acts on lengths 0 to 3, beside the plain model.

use crate::act::{Act, Answer};
use crate::plain::Plain;
use crate::stream_tests::happen;
use crate::texts::{write_behind, write_value};
use cases::Answers;
use std::alloc::{AllocError, Global};
use std::test::Fail;
use stream_ends::{Rendezvous, Side};

/// What a place in a run counts for, where each act is a digit of 14: reads and writes of four lengths, deliveries,
/// cancels and drops. The first act is the first digit.
const PLACES: [u32; 6] = [537_824, 38_416, 2_744, 196, 14, 1];

/// The act of this number.
fn act_at(number: u32) -> Act {
    match number {
        0..=3 => Act::Call(Side::Reader, number),
        4..=7 => Act::Call(Side::Writer, number - 4),
        8 => Act::Deliver(Side::Reader),
        9 => Act::Deliver(Side::Writer),
        10 => Act::Cancel(Side::Reader),
        11 => Act::Cancel(Side::Writer),
        12 => Act::DropEnd(Side::Reader),
        _ => Act::DropEnd(Side::Writer),
    }
}

/// Lets the acts of a run happen, up to the first that may not, and answers how many runs begin alike, or `None` where
/// something else is answered than by the plain model.
fn compare(run: u32) -> Option<u32> {
    let mut ends = Rendezvous::new();
    let mut plain = Plain::new();
    for place in &PLACES {
        if *place == 0 {
            return Some(1);
        }
        let act = act_at(run / *place % 14);
        let got = happen(&mut ends, act);
        if got != plain.happen(act) {
            return None;
        }
        if got == Answer::No {
            return Some(*place);
        }
    }
    Some(1)
}

/// The first of these runs in which something else is answered. Of those that begin alike up to an act that may not happen, one
/// is enough.
fn compare_all(from: u32, to: u32) -> Option<u32> {
    let mut next = from;
    for run in from..to {
        if run >= next {
            match compare(run) {
                Some(alike) => next = run.saturating_add(alike),
                None => return Some(run),
            }
        }
    }
    None
}

/// Writes how many runs there are from one number to another, or the first of them in which something else is answered.
fn write_runs(text: &mut String, from: u32, to: u32) -> Result<(), AllocError> {
    match compare_all(from, to) {
        Some(run) => write_behind(text, "otherwise in run ", run),
        None => {
            write_value(text, to.saturating_sub(from))?;
            text.push_str(" runs")
        }
    }
}

/// The runs from one number to another: how many they are, or the first of them in which something else is answered.
pub(crate) struct AllRuns;

impl Answers for AllRuns {
    fn answer(alloc: Global, given: &str) -> Result<String, Fail> {
        let (from, to) = given.split_once(' ').ok_or("no end")?;
        let (from, to) = (from.parse::<u32>()?, to.parse::<u32>()?);
        let mut text = String::new(alloc);
        write_runs(&mut text, from, to)?;
        Ok(text)
    }
}
