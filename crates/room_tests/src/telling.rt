//! What comes of lowering and copying, as text.

use crate::given::given;
use crate::lowering::write_words;
use crate::scene::Scene;
use copy_engine::{Act, Acts};
use std::alloc::Global;
use std::fmt::Write;
use std::test::Fail;
use table_texts::{number, slots_of, write_moved, write_table};
use wasm_store::Store;

/// Writes a call: the number of the function, the words that it is called with, and those of the answer.
fn write_act(act: &Act, text: &mut String) -> Result<(), Fail> {
    let canon = act.canon;
    write!(text, " {canon}(")?;
    write_words(act.words.as_slice(), text)?;
    match &act.got {
        Some(words) => {
            text.push_str(")=")?;
            write_words(words.as_slice(), text)
        }
        None => Ok(text.push_str(")!")?),
    }
}

/// Writes the words of context, and the calls.
fn write_acts(acts: &Acts, text: &mut String) -> Result<(), Fail> {
    let (first, second) = acts.context;
    write!(text, " ; {first} {second}")?;
    for act in acts.calls.as_slice() {
        write_act(act, text)?;
    }
    Ok(())
}

/// Writes eight bytes of a memory, from a place on.
fn write_bytes(store: &Store, memory: usize, place: u32, text: &mut String) -> Result<(), Fail> {
    if memory >= store.memory_count() {
        return Err(Fail::new("no memory"));
    }
    text.push_str(" ; ")?;
    for byte in store.memory(memory).iter().skip(place as usize).take(8) {
        write!(text, "{byte:02x}")?;
    }
    Ok(())
}

/// Writes the entries of the table of the instance that reads.
fn write_into(alloc: Global, scene: &Scene, line: &str, text: &mut String) -> Result<(), Fail> {
    let slots = slots_of(alloc, given(line, "into", ""))?;
    let count = slots.split_whitespace().count();
    text.push_str(" ;")?;
    write_table(text, &scene.into, count)
}

/// Writes what stands behind a lowering: the words of context and the calls, the units that are left, eight bytes of the memory of the
/// instance that reads, and its table.
pub(crate) fn write_scene(
    alloc: Global,
    store: &Store,
    scene: &Scene,
    line: &str,
    text: &mut String,
) -> Result<(), Fail> {
    write_acts(&scene.acts, text)?;
    let left = scene.fuel.left();
    write!(text, " ; {left}")?;
    let memory = number(given(line, "to", "1"))? as usize;
    write_bytes(store, memory, number(given(line, "see", "64"))?, text)?;
    write_into(alloc, scene, line, text)
}

/// Writes the table of the instance that writes, and what has moved in it.
pub(crate) fn write_out(scene: &Scene, line: &str, text: &mut String) -> Result<(), Fail> {
    let count = given(line, "out", "").split_whitespace().count();
    text.push_str(" ;")?;
    write_table(text, &scene.out, count)?;
    text.push_str(" ;")?;
    write_moved(text, scene.moved.as_slice())
}
