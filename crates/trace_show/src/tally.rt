//! What is counted of lines.

ghost use Rattle.std.specs.Prelude.{◌≡◌, ◌+◌, ◌%◌, ◌^◌, List};
ghost use Rattle.std.specs.List.{sum_by};
ghost use Rattle.trace_labels.specs.declared.label.Label.{Label};
ghost use Rattle.trace_show.specs.Tally.{number_in, copied_count, copied_sum, count_in, sum_in, nothing, with_lines, counted};

use syntax_trees::Value;
use trace_labels::{Copied, Label};

/// A value's number, which is 0 where the value is no unsigned 32-bit integer.
fn number_in(value: &Value) -> u64
    ensures { result ≡ number_in value.now }
{
    match value {
        Value::U32(number) => u64::from(*number),
        _ => 0,
    }
}

/// A number and those of values, modulo 2^64.
#[tactic(auto, using(crate::proofs::Tallies::sum_more, crate::proofs::Tallies::alone))]
fn with_numbers(start: u64, values: &[Value]) -> u64
    ensures { result ≡ (start + sum_by number_in values.now) % 2 ^ 64 }
{
    let mut sum = start;
    for value in values {
        sum = sum.wrapping_add(number_in(value));
    }
    sum
}

/// How many elements one copy moved.
fn copied_count(copied: &Copied) -> u64
    ensures { result ≡ copied_count copied.now }
{
    match copied {
        Copied::Units(count) => u64::from(*count),
        Copied::Values(elements) => elements.values.len() as u64,
    }
}

/// A sum and the numbers that one copy moved, modulo 2^64.
#[tactic(auto, using(crate::proofs::Tallies::alone))]
fn with_copied(start: u64, copied: &Copied) -> u64
    ensures { result ≡ (start + copied_sum copied.now) % 2 ^ 64 }
{
    match copied {
        Copied::Units(_) => start,
        Copied::Values(elements) => with_numbers(start, elements.values.as_slice()),
    }
}

/// A count of elements with those that a line's copy moved, modulo 2^64. Of another line it is the count itself.
#[tactic(auto, using(crate::proofs::Tallies::alone))]
pub(crate) fn with_count(count: u64, label: &Label) -> u64
    ensures { result ≡ (count + count_in label.now) % 2 ^ 64 }
{
    match label {
        Label::Copy { copied, .. } => count.wrapping_add(copied_count(copied)),
        _ => count,
    }
}

/// A sum with the numbers that a line's copy moved, modulo 2^64. Of another line it is the sum itself.
#[tactic(auto, using(crate::proofs::Tallies::alone))]
pub(crate) fn with_sum(sum: u64, label: &Label) -> u64
    ensures { result ≡ (sum + sum_in label.now) % 2 ^ 64 }
{
    match label {
        Label::Copy { copied, .. } => with_copied(sum, copied),
        _ => sum,
    }
}

/// A law: what is told line by line is what is counted of all lines at once.
#[tactic(auto, using(crate::proofs::Tallies::counted_at_once))]
pub fn lines_are_counted()
    ensures { (lines : List Label) → with_lines nothing lines ≡ counted lines }
{}
