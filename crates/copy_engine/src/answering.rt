//! What canonical functions answer to code that gives out places.

ghost use Rattle.std.specs.Prelude.{◌≡◌};
ghost use Rattle.res_handles.specs.Calls.{view_at};
ghost use Rattle.copy_engine.specs.Answering.{setting_of, first_word, word_at, word_changed, context_answer, rep_answer, resource_answer, kind_answer, canon_answer, maker_of, host_answer};

use crate::setting::Lowering;
use builtin_kinds::{ContextOp, ResourceOp};
use comp_graph::{BuiltinKind, CanonFunc};
use handle_table::Table;
use res_handles::{Entry, Refusal, rep};
use thiserror::Error;

/// Why a call of a canonical function is not answered.
#[derive(Clone, Copy, Debug, Error)]
pub enum CallRefusal {
    /// The instance may not be left while values are lowered into it.
    #[error("the instance may not be left")]
    CannotLeave,
    /// The index of a handle is refused.
    #[error("{0}")]
    Refused(Refusal),
    /// The instance made no such function, or it takes or gives other words.
    #[error("the instance made no such function")]
    NoRule,
}

/// What comes of a call of a canonical function.
#[derive(Clone, Copy)]
pub enum Answer {
    /// This word, or no word; and the words of context then.
    Replies(Option<u32>, (u32, u32)),
    /// It is refused.
    Refuses(CallRefusal),
}

/// The answer to a call of the canonical function of a number, by code of the instance into which values are lowered: `context.get`,
/// `context.set` and `resource.rep` are answered where the instance may not be left (Component Model, CanonicalABI.md, "Canonical
/// Built-ins").
pub(crate) fn host_answer<E: Entry + Drop>(
    to: &Lowering<'_>,
    handles: &Table<E>,
    context: (u32, u32),
    number: usize,
    words: &[u64],
) -> Answer
    ensures { result ≡ host_answer (setting_of to.now) (view_at E.view handles.now.slots) context number words.now }
{
    match to.canons.get(number) {
        Some(canon) => {
            if maker_of(canon) == to.instance {
                canon_answer(handles, canon, context, words)
            } else {
                Answer::Refuses(CallRefusal::NoRule)
            }
        }
        None => Answer::Refuses(CallRefusal::NoRule),
    }
}

/// The component instance that made a canonical function.
fn maker_of(canon: &CanonFunc) -> u32
    ensures { result ≡ maker_of canon.now }
{
    match canon {
        CanonFunc::Lower(lower) => lower.get().instance,
        CanonFunc::Builtin(builtin) => builtin.instance,
    }
}

/// The answer of a canonical function.
fn canon_answer<E: Entry + Drop>(
    handles: &Table<E>,
    canon: &CanonFunc,
    context: (u32, u32),
    words: &[u64],
) -> Answer
    ensures { result ≡ canon_answer (view_at E.view handles.now.slots) canon.now context words.now }
{
    match canon {
        CanonFunc::Lower(_) => Answer::Refuses(CallRefusal::CannotLeave),
        CanonFunc::Builtin(builtin) => kind_answer(handles, &builtin.kind, context, words),
    }
}

/// That of a built-in.
fn kind_answer<E: Entry + Drop>(
    handles: &Table<E>,
    kind: &BuiltinKind,
    context: (u32, u32),
    words: &[u64],
) -> Answer
    ensures { result ≡ kind_answer (view_at E.view handles.now.slots) kind.now context words.now }
{
    match kind {
        BuiltinKind::Resource { op, resource } => {
            resource_answer(handles, *op, *resource, context, words)
        }
        BuiltinKind::TaskReturn {
            result: _,
            options: _,
        } => Answer::Refuses(CallRefusal::CannotLeave),
        BuiltinKind::Plain(_) => Answer::Refuses(CallRefusal::CannotLeave),
        BuiltinKind::Context { op, slot } => context_answer(*op, *slot, context, words),
        BuiltinKind::Wait {
            op: _,
            cancellable: _,
            memory: _,
        } => Answer::Refuses(CallRefusal::CannotLeave),
        BuiltinKind::End {
            kind: _,
            element: _,
            op: _,
        } => Answer::Refuses(CallRefusal::CannotLeave),
    }
}

/// That of a built-in of a resource.
fn resource_answer<E: Entry + Drop>(
    handles: &Table<E>,
    op: ResourceOp,
    resource: u32,
    context: (u32, u32),
    words: &[u64],
) -> Answer
    ensures { result ≡ resource_answer (view_at E.view handles.now.slots) op resource context words.now }
{
    match op {
        ResourceOp::New => Answer::Refuses(CallRefusal::CannotLeave),
        ResourceOp::Drop => Answer::Refuses(CallRefusal::CannotLeave),
        ResourceOp::Rep => match first_word(words) {
            Some(index) => rep_answer(rep(handles, index, resource), context),
            None => Answer::Refuses(CallRefusal::NoRule),
        },
    }
}

/// The answer by the representation that is found.
fn rep_answer(found: Result<u32, Refusal>, context: (u32, u32)) -> Answer
    ensures { result ≡ rep_answer found context }
{
    match found {
        Ok(rep) => Answer::Replies(Some(rep), context),
        Err(why) => Answer::Refuses(CallRefusal::Refused(why)),
    }
}

/// The answer of a built-in of a word of context.
fn context_answer(op: ContextOp, slot: u32, context: (u32, u32), words: &[u64]) -> Answer
    ensures { result ≡ context_answer op slot context words.now }
{
    match op {
        ContextOp::Get => Answer::Replies(Some(word_at(slot, context)), context),
        ContextOp::Set => match first_word(words) {
            Some(word) => Answer::Replies(None, word_changed(slot, word, context)),
            None => Answer::Refuses(CallRefusal::NoRule),
        },
    }
}

/// A word of context.
fn word_at(slot: u32, context: (u32, u32)) -> u32
    ensures { result ≡ word_at slot context }
{
    if slot == 0 { context.0 } else { context.1 }
}

/// The words of context, where one is changed.
fn word_changed(slot: u32, word: u32, context: (u32, u32)) -> (u32, u32)
    ensures { result ≡ word_changed slot word context }
{
    if slot == 0 {
        (word, context.1)
    } else {
        (context.0, word)
    }
}

/// The first word of a call, where it is a 32-bit one.
fn first_word(words: &[u64]) -> Option<u32>
    ensures { result ≡ first_word words.now }
{
    let word = *words.first()?;
    if word < 4_294_967_296 {
        Some(word as u32)
    } else {
        None
    }
}
