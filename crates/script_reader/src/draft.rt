//! A script in the making.

ghost use Rattle.std.specs.Prelude.{◌≡◌, Ok, Err, MatchResult};
ghost use Rattle.std.specs.Str.{IsUtf8};
ghost use Rattle.faults.specs.Faults.{MayMake, MayStep};
ghost use Rattle.script_reader.specs.Script as scripts;

use crate::call::read_call;
use crate::directory::Directory;
use crate::fault::ScriptWhy;
use crate::number::{is_number, number_up_to};
use crate::parts::Parts;
use crate::script::{Item, Script};
use crate::text::after;
use faults::MemoryOr;
use std::alloc::Global;
use std::marker::Model;
use syntax_trees::Seq;

/// How many units of fuel a script gives at most.
const FUEL_LIMIT: u32 = 1_000_000_000;

/// How many units of fuel a script gives where no line says so.
const DEFAULT_FUEL: u32 = 1_000_000;

/// A script in the making: what the lines so far say.
#[derive(Drop)]
pub struct Draft {
    fuel: Option<u32>,
    picks: Seq<u32>,
    /// How many of the items are calls.
    calls: u32,
    items: Seq<Item>,
}

impl Model for Draft {
    ghost use Rattle.std.specs.Prelude.{◌≡◌, ◌≤◌, IfSome};
    ghost use Rattle.script_reader.specs.Script as scripts;
    ghost use Rattle.script_reader.specs.Script.{fuel_limit, calls_in};
    ghost use Rattle.script_reader.specs.contracts.script.Item as an_item;
    ghost use Rattle.std.specs.Coded.{codes};

    ghost Value = { scripts.Draft };

    ghost coded = { Prim.hlevel (codes, an_item.the_row.coded) };

    ghost view = { λ s. record { fuel = s.fuel; picks = s.picks; items = s.items } };

    ghost invariant = { λ s. IfSome s.fuel (λ n. (1 ≤ n) × (n ≤ fuel_limit)) × (s.calls ≡ calls_in s.items) };
}

/// The units of fuel of a text behind the word `fuel` and one space.
fn read_fuel(text: &[u8]) -> Result<u32, ScriptWhy>
    ensures { result ≡ scripts.fuel_of text.now }
{
    if !is_number(text) {
        return Err(ScriptWhy::Form);
    }
    match number_up_to(FUEL_LIMIT, text) {
        None | Some(0) => Err(ScriptWhy::Fuel),
        Some(fuel) => Ok(fuel),
    }
}

/// The number of one of so many calls, of a text behind the word `cancel` and one space.
fn read_cancel(calls: u32, text: &[u8]) -> Result<u32, ScriptWhy>
    ensures { result ≡ scripts.cancel_of calls text.now }
{
    if !is_number(text) {
        return Err(ScriptWhy::Form);
    }
    match number_up_to(calls, text) {
        None | Some(0) => Err(ScriptWhy::CallNumber),
        Some(number) => Ok(number),
    }
}

/// One pick.
fn read_pick(text: &[u8]) -> Option<u32>
    ensures { result ≡ scripts.pick_of text.now }
{
    if is_number(text) {
        number_up_to(u32::MAX, text)
    } else {
        None
    }
}

/// The picks of a text behind the word `pick` and one space.
#[tactic(auto, using(crate::proofs::Picks::all_read, crate::proofs::Picks::one_read, crate::proofs::Picks::one_refused))]
fn read_picks(alloc: Global, text: &[u8]) -> Result<Seq<u32>, MemoryOr<ScriptWhy>>
    ensures { MayMake (λ picks. picks) (scripts.picks_of text.now) result }
{
    let mut parts = Parts::of(b' ', text);
    let mut picks = Seq::new(alloc);
    while let Some(part) = parts.next() {
        picks.push(read_pick(part).ok_or(ScriptWhy::Form)?)?;
    }
    Ok(picks)
}

/// Whether the text of a line says nothing: it is empty, or a comment.
fn is_skipped(text: &[u8]) -> bool
    ensures { result ≡ scripts.is_skipped text.now }
{
    match text {
        [] => true,
        [first, ..] => *first == b'#',
    }
}

impl Draft {
    /// What is said before the first line. It takes no memory.
    pub fn new(alloc: Global) -> Draft
        ensures { result ≡ scripts.empty_draft }
    {
        Draft {
            fuel: None,
            picks: Seq::new(alloc),
            calls: 0,
            items: Seq::new(alloc),
        }
    }

    /// Whether a line so far says anything.
    fn is_begun(&self) -> bool
        ensures { result ≡ scripts.is_begun self.now }
    {
        self.fuel.is_some() || !self.picks.is_empty() || !self.items.is_empty()
    }

    /// Adds the `fuel` line with this text behind its word.
    fn add_fuel(&mut self, text: &[u8]) -> Result<(), ScriptWhy>
        ensures { MatchResult result (λ _. scripts.add_fuel self.old text.now ≡ Ok self.new) (λ why. scripts.add_fuel self.old text.now ≡ Err why) }
    {
        if self.is_begun() {
            return Err(ScriptWhy::Form);
        }
        self.fuel = Some(read_fuel(text)?);
        Ok(())
    }

    /// Adds the `call` line with this text behind its word.
    #[tactic(auto, using(crate::proofs::Counted::one_call))]
    fn add_call(
        &mut self,
        alloc: Global,
        directory: &Directory,
        text: &[u8],
    ) -> Result<(), MemoryOr<ScriptWhy>>
        requires { IsUtf8 text.now }
        ensures { MayStep (scripts.with_call self.old (scripts.call_of directory.now text.now)) self.new result }
    {
        let call = read_call(alloc, directory, text)?;
        // There are fewer than 2^32 lines.
        let calls = self.calls.checked_add(1).ok_or(MemoryOr::Memory)?;
        self.items.push(Item::Call(call))?;
        self.calls = calls;
        Ok(())
    }

    /// Adds the `cancel` line with this text behind its word.
    #[tactic(auto, using(crate::proofs::Counted::no_call))]
    fn add_cancel(&mut self, text: &[u8]) -> Result<(), MemoryOr<ScriptWhy>>
        ensures { MayStep (scripts.with_cancel self.old (scripts.cancel_of (scripts.calls_in self.old.items) text.now)) self.new result }
    {
        let number = read_cancel(self.calls, text)?;
        self.items.push(Item::Cancel(number))?;
        Ok(())
    }

    /// Adds the `pick` line with this text behind its word.
    fn add_picks(&mut self, alloc: Global, text: &[u8]) -> Result<(), MemoryOr<ScriptWhy>>
        ensures { MayStep (scripts.with_picks self.old (scripts.picks_of text.now)) self.new result }
    {
        self.picks.append(read_picks(alloc, text)?)?;
        Ok(())
    }

    /// Adds the line with this text.
    pub fn add_line(
        &mut self,
        alloc: Global,
        directory: &Directory,
        text: &[u8],
    ) -> Result<(), MemoryOr<ScriptWhy>>
        requires { IsUtf8 text.now }
        ensures { MayStep (scripts.add_line directory.now self.old text.now) self.new result }
    {
        if is_skipped(text) {
            return Ok(());
        }
        if let Some(fuel) = after(b"fuel ", text) {
            self.add_fuel(fuel)?;
            return Ok(());
        }
        if let Some(call) = after(b"call ", text) {
            return self.add_call(alloc, directory, call);
        }
        if let Some(cancel) = after(b"cancel ", text) {
            return self.add_cancel(cancel);
        }
        let picks = after(b"pick ", text).ok_or(ScriptWhy::Form)?;
        self.add_picks(alloc, picks)
    }

    /// The script of what all lines say. It takes no memory.
    pub fn into_script(self) -> Script
        ensures { result ≡ scripts.script_of self }
    {
        let fuel = self.fuel.unwrap_or(DEFAULT_FUEL);
        Script::new(fuel, self.picks, self.items)
    }
}
