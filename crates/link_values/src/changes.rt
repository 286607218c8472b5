//! Changes of the numbers of resources.

ghost use Rattle.std.specs.Prelude.{◌≡◌, ◌≤◌, ◌+◌, ◌-◌, ◌*◌, suc, nat_lt, if◌then◌else◌, unwrap_or, IfOk};
ghost use Rattle.std.specs.List.{slice_get};
ghost use Rattle.link_values.specs.Resources.{first_brought};
ghost use Rattle.link_values.specs.Changes.{change_of};

use std::alloc::AllocError;

/// The first number of resources that types of instances bring. Those that components define have lower ones.
const FIRST_BROUGHT: usize = 2_147_483_648;

/// How many resources a type of instances may bring. Behind so many stand the numbers of what the type of instances around it brings.
pub const RESOURCE_ROOM: usize = 1_048_576;

/// A change of the numbers of resources in types. What is brought by types of instances that stand between stays as it is.
#[derive(Clone, Copy)]
pub enum Change<'g> {
    /// A type is seen from so many types of instances further in.
    FurtherIn(usize),
    /// What a type of instances brings stands behind so many that the type around it brings.
    BroughtBehind(usize),
    /// These stand in the place of what a type of instances brings.
    FilledIn(&'g [usize]),
}

/// The first number of those that the type of instances brings that stands so many types of instances further out. It fails where
/// there is no such number, as do the other functions here.
pub fn first_brought(up: usize) -> Result<usize, AllocError>
    ensures { IfOk result (λ number. number ≡ first_brought up) }
{
    let Some(room) = up.checked_mul(RESOURCE_ROOM) else {
        return Err(AllocError);
    };
    sum(FIRST_BROUGHT, room)
}

/// A sum of numbers.
fn sum(number: usize, added: usize) -> Result<usize, AllocError>
    ensures { IfOk result (λ all. all ≡ number + added) }
{
    match number.checked_add(added) {
        Some(all) => Ok(all),
        None => Err(AllocError),
    }
}

/// The number that is given at a place, 0 where none is.
fn given_at(given: &[usize], at: usize) -> usize
    ensures { result ≡ unwrap_or (slice_get given.now at) 0 }
{
    match given.get(at).copied() {
        Some(number) => number,
        None => 0,
    }
}

impl<'g> Change<'g> {
    /// What a number becomes that stands in so many types of instances.
    pub fn of(self, depth: usize, number: usize) -> Result<usize, AllocError>
        ensures { IfOk result (λ new. new ≡ change_of self.entry depth number) }
    {
        let first = first_brought(depth)?;
        if number < first {
            return Ok(number);
        }
        match self {
            Change::FurtherIn(by) => further_in(by, number),
            Change::BroughtBehind(count) => behind(count, depth, number),
            Change::FilledIn(given) => Ok(given_at(given, number - first)),
        }
    }
}

/// A number that is seen from so many types of instances further in.
fn further_in(by: usize, number: usize) -> Result<usize, AllocError>
    ensures { IfOk result (λ new. new ≡ number + by * 1048576) }
{
    let Some(room) = by.checked_mul(RESOURCE_ROOM) else {
        return Err(AllocError);
    };
    sum(number, room)
}

/// A number that belongs to the type of instances around, behind so many.
fn behind(count: usize, depth: usize, number: usize) -> Result<usize, AllocError>
    requires { first_brought depth ≤ number }
    ensures { IfOk result (λ new. new ≡ (if nat_lt number (first_brought (suc depth)) then number + count else number - 1048576)) }
{
    let Some(inside) = depth.checked_add(1) else {
        return Err(AllocError);
    };
    if number < first_brought(inside)? {
        return sum(number, count);
    }
    Ok(number - RESOURCE_ROOM)
}
