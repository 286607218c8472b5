//! The types of what the canonical functions of the cases pass.

ghost use Rattle.std.specs.Prelude.{◌≡◌, true};
ghost use Rattle.laid_types.specs.Layers.{IsThere};

use builtin_kinds::EndKind;
use comp_graph::graph_number;
use laid_types::ValTypeLayer;
use link_types::Types;
use std::alloc::Global;
use std::test::Fail;

/// The numbers of the types of streams, or of those of futures, by their elements.
#[derive(Clone, Copy)]
pub struct EndNumbers {
    /// Of elements that hold nothing.
    pub units: u32,
    /// Of u8.
    pub bytes: u32,
    /// Of u32.
    pub words: u32,
    /// Of strings.
    pub texts: u32,
}

/// The numbers of the types.
#[derive(Clone, Copy)]
pub struct Numbers {
    /// Of u8.
    pub byte: u32,
    /// Of u32.
    pub word: u32,
    /// Of string.
    pub text: u32,
    /// Of streams.
    pub streams: EndNumbers,
    /// Of futures.
    pub futures: EndNumbers,
}

/// Whether the type of an element is there, where there is an element.
fn is_there(types: &Types<'_>, element: Option<usize>) -> bool
    ensures { result ≡ true → IsThere types.now.values element }
{
    match element {
        Some(number) => number < types.value_count(),
        None => true,
    }
}

/// Numbers the type of the ends of streams or futures of an element.
fn ends(
    alloc: Global,
    types: &mut Types<'_>,
    kind: EndKind,
    element: Option<usize>,
) -> Result<u32, Fail> {
    if !is_there(types, element) {
        return Err(Fail::new("no element"));
    }
    let number = match kind {
        EndKind::Stream => types.value_type(alloc, &ValTypeLayer::Stream(element))?,
        EndKind::Future => types.value_type(alloc, &ValTypeLayer::Future(element))?,
    };
    Ok(graph_number(number)?)
}

/// Numbers the types of streams, or of futures.
fn all_ends(
    alloc: Global,
    types: &mut Types<'_>,
    kind: EndKind,
    byte: usize,
    word: usize,
    text: usize,
) -> Result<EndNumbers, Fail> {
    Ok(EndNumbers {
        units: ends(alloc, types, kind, None)?,
        bytes: ends(alloc, types, kind, Some(byte))?,
        words: ends(alloc, types, kind, Some(word))?,
        texts: ends(alloc, types, kind, Some(text))?,
    })
}

/// Numbers all types, and that of functions of no parameter and no result as the first one of functions.
pub(crate) fn number_all(alloc: Global, types: &mut Types<'_>) -> Result<Numbers, Fail> {
    let byte = types.value_type(alloc, &ValTypeLayer::U8)?;
    let word = types.value_type(alloc, &ValTypeLayer::U32)?;
    let text = types.value_type(alloc, &ValTypeLayer::String)?;
    types.func_type(alloc, &[], None)?;
    Ok(Numbers {
        byte: graph_number(byte)?,
        word: graph_number(word)?,
        text: graph_number(text)?,
        streams: all_ends(alloc, types, EndKind::Stream, byte, word, text)?,
        futures: all_ends(alloc, types, EndKind::Future, byte, word, text)?,
    })
}
