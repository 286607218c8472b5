//! Calls of canonical functions that are answered also where the instance may not be left.

ghost use Rattle.std.specs.Prelude.{◌≡◌, ◌∷◌, [], Some, IfOk};
ghost use Rattle.world_parts.specs.Held.{Does};
ghost use Rattle.world_stacks.specs.Piles.{Finds};
ghost use Rattle.world_stacks.specs.Exempt.{first_word, context_answer, resource_answer, builtin_answer, exempt_answer};

use builtin_kinds::{ContextOp, ResourceOp};
use comp_graph::{BuiltinKind, CanonFunc};
use std::alloc::Global;
use task_table::Words;
use world_parts::{Part, Parts, Stop};

/// The answer to a task of a canonical function that is called with these words, where it is one that is answered also where the instance may
/// not be left: `context.get`, `context.set` and `resource.rep` (Component Model, CanonicalABI.md, "Canonical Built-ins").
///
/// # Errors
///
/// The traps `Absent`, `OtherKind` and `OtherType` of `resource.rep`, and `Memory`; and `Stuck` where the words are others than it takes.
pub fn exempt_answer(
    alloc: Global,
    parts: &mut Parts,
    task: u32,
    canon: &CanonFunc,
    words: &[u64],
) -> Part<Option<Words>>
    ensures answers { Does (exempt_answer task words.now canon.now) parts.old result parts.new }
    ensures stays { IfOk result (λ _. parts.new.store ≡ parts.old.store) }
{
    match canon {
        CanonFunc::Lower(_) => Ok(None),
        CanonFunc::Builtin(builtin) => {
            builtin_answer(
                alloc,
                parts,
                task,
                builtin.instance as usize,
                &builtin.kind,
                words,
            )
        }
    }
}

/// That of a built-in that an instance made.
fn builtin_answer(
    alloc: Global,
    parts: &mut Parts,
    task: u32,
    at: usize,
    kind: &BuiltinKind,
    words: &[u64],
) -> Part<Option<Words>>
    ensures answers { Does (builtin_answer task words.now at kind.now) parts.old result parts.new }
    ensures stays { IfOk result (λ _. parts.new.store ≡ parts.old.store) }
{
    match kind {
        BuiltinKind::Resource { op, resource } => {
            resource_answer(alloc, parts, at, *op, *resource, words)
        }
        BuiltinKind::TaskReturn {
            result: _,
            options: _,
        } => Ok(None),
        BuiltinKind::Plain(_) => Ok(None),
        BuiltinKind::Context { op, slot } => context_answer(alloc, parts, task, *op, *slot, words),
        BuiltinKind::Wait {
            op: _,
            cancellable: _,
            memory: _,
        } => Ok(None),
        BuiltinKind::End {
            kind: _,
            element: _,
            op: _,
        } => Ok(None),
    }
}

/// That of a built-in of a resource.
fn resource_answer(
    alloc: Global,
    parts: &mut Parts,
    at: usize,
    op: ResourceOp,
    resource: u32,
    words: &[u64],
) -> Part<Option<Words>>
    ensures answers { Does (resource_answer at words.now op resource) parts.old result parts.new }
    ensures stays { IfOk result (λ _. parts.new.store ≡ parts.old.store) }
{
    match op {
        ResourceOp::New => Ok(None),
        ResourceOp::Drop => Ok(None),
        ResourceOp::Rep => {
            let Some(index) = first_word(words) else {
                return Err(Stop::Stuck);
            };
            let rep = parts.rep_at(at, index, resource)?;
            let words = one_word(alloc, u64::from(rep))?;
            Ok(Some(words))
        }
    }
}

/// That of a built-in of a word of the task.
fn context_answer(
    alloc: Global,
    parts: &mut Parts,
    task: u32,
    op: ContextOp,
    slot: u32,
    words: &[u64],
) -> Part<Option<Words>>
    ensures answers { Does (context_answer task words.now op slot) parts.old result parts.new }
    ensures stays { IfOk result (λ _. parts.new.store ≡ parts.old.store) }
{
    match op {
        ContextOp::Get => {
            let word = parts.context_word(task, slot)?;
            let words = one_word(alloc, u64::from(word))?;
            Ok(Some(words))
        }
        ContextOp::Set => {
            let Some(word) = first_word(words) else {
                return Err(Stop::Stuck);
            };
            parts.set_context_word(task, slot, word)?;
            Ok(Some(Words::new(alloc)))
        }
    }
}

/// The first word of a call, where it is a 32-bit one.
fn first_word(words: &[u64]) -> Option<u32>
    ensures { result ≡ first_word words.now }
{
    let word = *words.first()?;
    if word < 4_294_967_296 {
        Some(word as u32)
    } else {
        None
    }
}

/// One word. It fails for want of memory alone.
fn one_word(alloc: Global, word: u64) -> Part<Words>
    ensures { Finds (Some (word ∷ [])) result }
{
    match Words::of(alloc, word) {
        Ok(words) => Ok(words),
        Err(_) => Err(Stop::Memory),
    }
}
