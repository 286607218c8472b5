//! Code that gives out places, whose calls of canonical functions are answered in place.

ghost use Rattle.std.specs.Prelude.{◌≡◌, ◌∷◌, [], true, length, Some, None, IfOk};
ghost use Rattle.std.specs.List.{slice_get};
ghost use Rattle.res_handles.specs.Calls.{view_at};
ghost use Rattle.syntax_trees.specs.declared.module_types.ValType.TheVariants.{I32};
ghost use Rattle.wasm_numbers.specs.Types.{AreWords};
ghost use Rattle.wasm_store.specs.Store.{Function};
ghost use Rattle.wasm_store.specs.Step.{start};
ghost use Rattle.wasm_store.specs.Typed.{StackTyped, Extends};
ghost use Rattle.copy_engine.specs.Nested.{is_realloc};
ghost use Rattle.copy_engine.specs.Answering.{setting_of, host_answer};
ghost use Rattle.copy_engine.specs.Hosting.{with_act, reply_words, AreLow, Stops, replied, goes_on, EndsFor, Leads, Resumes, HostedGives};

use crate::acts::{Act, Acts};
use crate::answering::{Answer, CallRefusal, host_answer};
use crate::nested::only_word;
use crate::setting::Lowering;
use ca_base::Fuel;
use handle_table::Table;
use res_handles::Entry;
use std::alloc::{AllocError, Global};
use syntax_trees::Seq;
use thiserror::Error;
use value_lower::RoomEnd;
use wasm_execution::{Outcome, Running, Suspended, Words, run, start};
use wasm_store::{Store, Trap};

/// Why code that is to give out a place gives none.
#[derive(Clone, Copy, Debug, Error)]
pub enum HostedTrap {
    /// A trap of core code.
    #[error("core code trapped: {0}")]
    Core(Trap),
    /// A call of a canonical function is refused. It is the last one that is kept.
    #[error("{0}")]
    Call(CallRefusal),
    /// There is no function to call of four i32 that gives one. Linking asks for one where a value of the types may need a place.
    #[error("there is no function that gives places")]
    NoRealloc,
}

/// What code that gives out places works on.
#[derive(Drop)]
pub struct HostedRoom {
    /// The store.
    pub store: Store,
    /// The fuel that is left.
    pub fuel: Fuel,
    /// What it has of the task for which it acts, and what it called.
    pub acts: Acts,
}

/// Runs a realloc: the function at this address, with these words, on a stack of its own. It sees the table of the instance.
pub(crate) fn call_realloc<E: Entry + Drop>(
    alloc: Global,
    room: &mut HostedRoom,
    handles: &Table<E>,
    to: &Lowering<'_>,
    address: usize,
    words: &[u64],
) -> Result<u32, RoomEnd<HostedTrap>>
    requires there { (f : Function) × (slice_get room.old.store.funcs address ≡ Some f) × (is_realloc f ≡ true) }
    requires words { AreWords (I32 ∷ I32 ∷ I32 ∷ I32 ∷ []) words.now }
    ensures gives { (f : Function) → slice_get room.old.store.funcs address ≡ Some f → HostedGives (setting_of to.now) (view_at E.view handles.now.slots) (record { room = room.old; stack = start f address words.now }) result room.new }
    ensures extends { Extends room.old.store room.new.store }
{
    // Its clause says that the store is typed.
    let _count = room.store.function_count();
    match start(alloc, &room.store, address, words) {
        Ok(running) => run_hosted(alloc, room, handles, to, running),
        Err(_) => Err(RoomEnd::Memory),
    }
}

/// Runs code that gives a place up to its end. There are fewer than 2^64 calls that are answered in place.
fn run_hosted<E: Entry + Drop>(
    alloc: Global,
    room: &mut HostedRoom,
    handles: &Table<E>,
    to: &Lowering<'_>,
    running: Running,
) -> Result<u32, RoomEnd<HostedTrap>>
    requires typed { StackTyped room.old.store (I32 ∷ []) running }
    ensures gives { HostedGives (setting_of to.now) (view_at E.view handles.now.slots) (record { room = room.old; stack = running }) result room.new }
    ensures extends { Extends room.old.store room.new.store }
{
    let mut running = running;
    for _call in 0..u64::MAX {
        // Its clause says that the store is typed.
        let _count = room.store.function_count();
        match run(alloc, running, &mut room.store, &mut room.fuel) {
            Outcome::Done(words) => return Ok(only_word(&words)),
            Outcome::Trapped(why) => return Err(RoomEnd::Trapped(HostedTrap::Core(why))),
            Outcome::NoFuel(later) => {
                later.give_up();
                return Err(RoomEnd::NoFuel);
            }
            Outcome::Memory => return Err(RoomEnd::Memory),
            Outcome::Calls(number, words, waiting) => {
                match answer_in_place(alloc, &mut room.acts, handles, to, number, words, waiting) {
                    Ok(next) => running = next,
                    Err(end) => return Err(end),
                }
            }
        }
    }
    running.give_up();
    Err(RoomEnd::Memory)
}

/// Answers a call of the canonical function of a number, at which a stack waits, in place: the stack goes on.
fn answer_in_place<E: Entry + Drop>(
    alloc: Global,
    acts: &mut Acts,
    handles: &Table<E>,
    to: &Lowering<'_>,
    number: usize,
    words: Words,
    waiting: Suspended,
) -> Result<Running, RoomEnd<HostedTrap>>
    ensures leads { Leads (goes_on number words waiting (host_answer (setting_of to.now) (view_at E.view handles.now.slots) acts.old.context number words) acts.old) result acts.new }
    ensures resumes { IfOk result (λ k. Resumes waiting k) }
{
    match host_answer(to, handles, acts.context, number, words.as_slice()) {
        Answer::Replies(reply, context) => {
            go_on(alloc, acts, number, words, waiting, reply, context)
        }
        Answer::Refuses(why) => {
            waiting.give_up();
            Err(refuse(acts, number, words, why))
        }
    }
}

/// A stack that waits goes on with the answer to its call, where it waits for so many words.
fn go_on(
    alloc: Global,
    acts: &mut Acts,
    number: usize,
    words: Words,
    waiting: Suspended,
    reply: Option<u32>,
    context: (u32, u32),
) -> Result<Running, RoomEnd<HostedTrap>>
    ensures leads { Leads (replied number words (reply_words reply) context waiting acts.old) result acts.new }
    ensures resumes { IfOk result (λ k. Resumes waiting k) }
{
    let Ok(reply) = reply_words(alloc, reply) else {
        waiting.give_up();
        return Err(RoomEnd::Memory);
    };
    if waiting.count() == reply.len() {
        resume_with(acts, number, words, waiting, reply, context)
    } else {
        waiting.give_up();
        Err(refuse(acts, number, words, CallRefusal::NoRule))
    }
}

/// The words of an answer.
fn reply_words(alloc: Global, reply: Option<u32>) -> Result<Words, AllocError>
    ensures value { IfOk result (λ words. words ≡ reply_words reply) }
    ensures low { IfOk result AreLow }
{
    match reply {
        Some(word) => Seq::of(alloc, u64::from(word)),
        None => Ok(Seq::new(alloc)),
    }
}

/// A stack that waits for so many words goes on with them. The call is kept with its answer.
fn resume_with(
    acts: &mut Acts,
    number: usize,
    words: Words,
    waiting: Suspended,
    reply: Words,
    context: (u32, u32),
) -> Result<Running, RoomEnd<HostedTrap>>
    requires count { length reply ≡ waiting.count }
    requires low { AreLow reply }
    ensures leads { Leads (replied number words reply context waiting acts.old) result acts.new }
    ensures resumes { IfOk result (λ k. Resumes waiting k) }
{
    let running = waiting.resume(reply.as_slice());
    acts.context = context;
    let act = Act {
        canon: number,
        words,
        got: Some(reply),
    };
    match acts.calls.push(act) {
        Ok(()) => Ok(running),
        Err(_) => {
            running.give_up();
            Err(RoomEnd::Memory)
        }
    }
}

/// Keeps a call that is refused.
fn refuse(acts: &mut Acts, number: usize, words: Words, why: CallRefusal) -> RoomEnd<HostedTrap>
    ensures { EndsFor (Stops why (with_act acts.old.context number words None acts.old)) result acts.new }
{
    let act = Act {
        canon: number,
        words,
        got: None,
    };
    match acts.calls.push(act) {
        Ok(()) => RoomEnd::Trapped(HostedTrap::Call(why)),
        Err(_) => RoomEnd::Memory,
    }
}
