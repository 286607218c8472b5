//! The options of canonical functions, by their kinds.

ghost use Rattle.std.specs.Prelude.{◌≡◌, length};
ghost use Rattle.std.specs.List.{list_all};
ghost use Rattle.link_spec.specs.Canons as canons;
ghost use Rattle.link_spec.specs.Canons.{count_of, is_option_there, memory_index, realloc_index, post_return_index, callback_index};
ghost use Rattle.link_spec.specs.Spaces.{Spaces};
ghost use Rattle.canon_types.specs.Kinds.{kind_index, is_of_kind};

use comp_tree::CanonOption;

/// What an option is for.
#[derive(Clone, Copy)]
enum Kind {
    /// The encoding of texts.
    Utf8,
    /// The memory.
    Memory,
    /// The core function that gives places in it.
    Realloc,
    /// The core function that is called when the result was lifted.
    PostReturn,
    /// That a task returns by `task.return`, or a caller goes on before what it called has returned.
    Async,
    /// The core function that is called with each event of a task.
    Callback,
}

/// The indices that options have, of each kind that of its first option.
#[derive(Clone, Copy)]
pub struct OptionIndices {
    /// The index of the memory.
    pub memory: Option<u32>,
    /// The index of the core function that gives places in it.
    pub realloc: Option<u32>,
    /// The index of the core function that is called when the result was lifted.
    pub post_return: Option<u32>,
    /// The index of the core function that is called with each event of a task.
    pub callback: Option<u32>,
}

/// Whether an option is of a kind.
fn is_of(kind: Kind, option: CanonOption) -> bool
    ensures { result ≡ is_of_kind kind option }
{
    match kind {
        Kind::Utf8 => matches!(option, CanonOption::Utf8),
        Kind::Memory => matches!(option, CanonOption::Memory(_)),
        Kind::Realloc => matches!(option, CanonOption::Realloc(_)),
        Kind::PostReturn => matches!(option, CanonOption::PostReturn(_)),
        Kind::Async => matches!(option, CanonOption::Async),
        Kind::Callback => matches!(option, CanonOption::Callback(_)),
    }
}

/// How many options are of a kind.
fn count_of(kind: Kind, options: &[CanonOption]) -> usize
    ensures { result ≡ count_of (is_of_kind kind) options.now }
{
    options
        .iter()
        .filter(|option| is_of(kind, **option))
        .count()
}

/// Whether no option stands twice (Component Model, Explainer.md, "Canonical Definitions").
pub fn stand_once(options: &[CanonOption]) -> bool
    ensures { result ≡ canons.stand_once options.now }
{
    count_of(Kind::Utf8, options) <= 1
        && count_of(Kind::Memory, options) <= 1
        && count_of(Kind::Realloc, options) <= 1
        && count_of(Kind::PostReturn, options) <= 1
        && count_of(Kind::Async, options) <= 1
        && count_of(Kind::Callback, options) <= 1
}

/// Whether one is `async`.
pub fn has_async(options: &[CanonOption]) -> bool
    ensures { result ≡ canons.has_async options.now }
{
    count_of(Kind::Async, options) > 0
}

/// The index that an option of a kind has.
fn index_of(kind: Kind, option: CanonOption) -> Option<u32>
    ensures { result ≡ kind_index kind option }
{
    match (kind, option) {
        (Kind::Memory, CanonOption::Memory(index))
        | (Kind::Realloc, CanonOption::Realloc(index))
        | (Kind::PostReturn, CanonOption::PostReturn(index))
        | (Kind::Callback, CanonOption::Callback(index)) => Some(index),
        (_, _) => None,
    }
}

/// The first index that an option of a kind has.
fn first_index(kind: Kind, options: &[CanonOption]) -> Option<u32>
    ensures { result ≡ canons.first_index (kind_index kind) options.now }
{
    for option in options {
        if let Some(index) = index_of(kind, *option) {
            return Some(index);
        }
    }
    None
}

/// What options name (Component Model, CanonicalABI.md, "Canonical ABI Options").
pub fn indices_of(options: &[CanonOption]) -> OptionIndices
    ensures { result ≡ record { memory = canons.first_index memory_index options.now; realloc = canons.first_index realloc_index options.now; post_return = canons.first_index post_return_index options.now; callback = canons.first_index callback_index options.now } }
{
    OptionIndices {
        memory: first_index(Kind::Memory, options),
        realloc: first_index(Kind::Realloc, options),
        post_return: first_index(Kind::PostReturn, options),
        callback: first_index(Kind::Callback, options),
    }
}

/// Whether what an option names is there, among so many core memories and core functions.
fn is_there(option: CanonOption, memories: usize, funcs: usize) -> bool
    ensures { (s : Spaces) → memories ≡ length s.core_memories → funcs ≡ length s.core_funcs → result ≡ is_option_there s option }
{
    match option {
        CanonOption::Utf8 | CanonOption::Async => true,
        CanonOption::Memory(index) => (index as usize) < memories,
        CanonOption::Realloc(index)
        | CanonOption::PostReturn(index)
        | CanonOption::Callback(index) => (index as usize) < funcs,
    }
}

/// Whether what options name is there, among so many core memories and core functions (Component Model, Explainer.md, "Canonical
/// Definitions").
pub fn are_there(options: &[CanonOption], memories: usize, funcs: usize) -> bool
    ensures { (s : Spaces) → memories ≡ length s.core_memories → funcs ≡ length s.core_funcs → result ≡ list_all (is_option_there s) options.now }
{
    for option in options {
        if !is_there(*option, memories, funcs) {
            return false;
        }
    }
    true
}
