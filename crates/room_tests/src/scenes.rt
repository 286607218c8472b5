//! Lines of what is lowered and copied in a store, with tables of handles.

ghost use Rattle.std.specs.Prelude.{◌^◌};
ghost use Rattle.laid_types.specs.SameTypes.{AreDistinct};
ghost use Rattle.value_lift.specs.Tables.{MostLends};
ghost use Rattle.table_texts.specs.Things.{thing_view};

use crate::canons::canons;
use crate::copies::write_copy;
use crate::given::{check_words, given};
use crate::hosted::write_hosted;
use crate::modules::{add_hosted, hosted_module};
use crate::scene::{Scene, scene_of};
use crate::telling::{write_out, write_scene};
use cases::{Answers, bytes_of};
use comp_graph::CanonFunc;
use copy_engine::{LowerOptions, Lowering};
use laid_types::NumberedType;
use res_handles::Home;
use std::alloc::Global;
use std::test::Fail;
use table_texts::{number, put_all, types_told};
use wasm_store::Store;
use wasm_typing::Valid;

/// What is done with a line.
#[derive(Clone, Copy)]
enum Doing {
    Lowers,
    Copies,
}

/// Puts the bytes of digits at the begin of a memory.
fn put_bytes(alloc: Global, store: &mut Store, memory: usize, digits: &str) -> Result<(), Fail> {
    let bytes = bytes_of(alloc, digits)?;
    if memory >= store.memory_count() {
        return Err(Fail::new("no memory"));
    }
    let to = store.memory_mut(memory);
    if bytes.len() > to.len() {
        return Err(Fail::new("too many bytes"));
    }
    to[..bytes.len()].copy_from_slice(&bytes);
    Ok(())
}

/// The numbers of the resources that the instance defines that reads.
fn resources_of(alloc: Global, words: &str) -> Result<Vec<u32>, Fail> {
    let mut resources = Vec::new(alloc);
    for word in words.split_whitespace() {
        resources.push(number(word)?)?;
    }
    Ok(resources)
}

/// The options of the instance that reads.
fn options_of(line: &str) -> Result<LowerOptions, Fail> {
    let memory = number(given(line, "to", "1"))? as usize;
    let realloc = match given(line, "realloc", "12") {
        "none" => None,
        address => Some(number(address)? as usize),
    };
    Ok(LowerOptions { memory, realloc })
}

/// Where values are lowered: in the instance 1, for the task 3.
fn lowering_of<'a>(
    options: LowerOptions,
    canons: &'a [CanonFunc],
    resources: &'a [u32],
) -> Lowering<'a> {
    let home = Home { task: 3, resources };
    Lowering {
        options,
        canons,
        instance: 1,
        home,
    }
}

/// Does with a scene what a line says, and writes what comes of it.
fn write_done(
    alloc: Global,
    store: &mut Store,
    scene: &mut Scene,
    canons: &[CanonFunc],
    t: &NumberedType<'_>,
    doing: Doing,
    line: &str,
    text: &mut String,
) -> Result<(), Fail>
    requires distinct { AreDistinct t.now.types }
    requires lends { MostLends thing_view (2 ^ 63) scene.old.out.slots }
{
    let resources = resources_of(alloc, given(line, "home", ""))?;
    let to = lowering_of(options_of(line)?, canons, &resources);
    match doing {
        Doing::Lowers => write_hosted(alloc, store, scene, &to, t, line, text),
        Doing::Copies => write_copy(alloc, store, scene, &to, t, line, text),
    }
}

/// What comes of a line whose types have these numbers.
fn scene_told(
    alloc: Global,
    store: &mut Store,
    types: &[usize],
    t: &NumberedType<'_>,
    doing: Doing,
    line: &str,
) -> Result<String, Fail>
    requires distinct { AreDistinct t.now.types }
{
    let canons = canons(alloc)?;
    let mut scene = scene_of(alloc, line, types)?;
    let mut text = String::new(alloc);
    write_done(alloc, store, &mut scene, &canons, t, doing, line, &mut text)?;
    write_scene(alloc, store, &scene, line, &mut text)?;
    match doing {
        Doing::Lowers => {}
        Doing::Copies => write_out(&scene, line, &mut text)?,
    }
    Ok(text)
}

/// What comes of a line in a store.
fn store_told(alloc: Global, store: &mut Store, doing: Doing, line: &str) -> Result<String, Fail> {
    put_bytes(alloc, store, 0, given(line, "bytes", ""))?;
    put_bytes(alloc, store, 1, given(line, "reader", ""))?;
    let val_types = types_told(alloc, given(line, "type", ""))?;
    let (types, numbers) = put_all(alloc, &val_types)?;
    let number = numbers.get(0).copied().ok_or("no type")?;
    match types.numbered(number) {
        Some(t) => scene_told(alloc, store, &numbers, &t, doing, line),
        None => Err(Fail::new("no type")),
    }
}

/// What comes of a line in instances of the module.
fn module_told(alloc: Global, valid: &Valid, doing: Doing, line: &str) -> Result<String, Fail> {
    let mut store = Store::new(alloc);
    add_hosted(alloc, &mut store, valid)?;
    store_told(alloc, &mut store, doing, line)
}

/// What comes of a line.
fn line_told(alloc: Global, doing: Doing, line: &str) -> Result<String, Fail> {
    check_words(line)?;
    let valid = hosted_module(alloc, given(line, "code", "41c000"))?;
    module_told(alloc, &valid, doing, line)
}

/// Lines of what is lowered.
pub(crate) struct LoweringLines;

impl Answers for LoweringLines {
    fn answer(alloc: Global, line: &str) -> Result<String, Fail> {
        line_told(alloc, Doing::Lowers, line)
    }
}

/// Lines of what is copied.
pub(crate) struct CopyLines;

impl Answers for CopyLines {
    fn answer(alloc: Global, line: &str) -> Result<String, Fail> {
        line_told(alloc, Doing::Copies, line)
    }
}
