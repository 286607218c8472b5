//! The readers of sections and of the whole module (Core 2.0, section 5.5).

ghost use Rattle.std.specs.Prelude.{◌≡◌, ◌&&◌, length, unwrap_or, IfOk, OkIff};
ghost use Rattle.std.specs.Option.{option_map};
ghost use Rattle.ca_base.specs.Grammar.{Reads, MayRead};
ghost use Rattle.ca_base.specs.Items.{sized, custom, u32 as number};
ghost use Rattle.wasm_code_reader.specs.Reasons.{numbers, reasons};
ghost use Rattle.wasm_reader.specs.Items.{data_payload};
ghost use Rattle.wasm_reader.specs.Code.{code_payload};
ghost use Rattle.wasm_reader.specs.Binary.{customs, payload, items, declarations, definitions, uses, module_end, is_there, ends, contents};

use crate::code::Declared;
use crate::declared::{Contents, Declarations, DeclaredFunc, Definitions, Uses};
use crate::items::{DeclaredFuncs, Exports, Imports};
use crate::segments::{DataCount, Elements, Globals};
use ca_base::{
    Kind, KindOf, PlacedOf, ReadError, Refusal, VecOf, Window, read_section, read_sized_of,
};
use std::alloc::Global;
use syntax_trees::Seq;
use wasm_code_reader::{FuncTypes, Indices, Memories, ModuleWhy, Tables, refused_byte};

/// Skips custom sections.
#[tactic(auto, unfolding(crate::specs::Binary::customs), using(crate::proofs::Customs::customs_none, crate::proofs::Customs::customs_stop, crate::proofs::Customs::customs_go, crate::proofs::Customs::customs_short, crate::proofs::Customs::customs_refused))]
fn skip_customs(window: &mut Window<ModuleWhy>) -> Result<(), Refusal<ModuleWhy>>
    ensures { Reads (λ _. tt) customs window.old window.new result }
{
    let count = window.left();
    for _index in 0..count {
        if window.next() != Some(0) {
            return Ok(());
        }
        window.byte()?;
        skip_custom(window)?;
    }
    Ok(())
}

/// Skips what stands behind the id of a custom section: a size, a name and any bytes.
fn skip_custom(window: &mut Window<ModuleWhy>) -> Result<(), Refusal<ModuleWhy>>
    ensures { Reads (λ _. tt) (sized numbers reasons (custom numbers)) window.old window.new result }
{
    let mut inner = window.open()?;
    inner.custom()?;
    inner.finish()?;
    Ok(())
}

/// Reads the section of an id, behind custom sections, where there is such a section.
#[tactic(auto, unfolding(crate::specs::Binary::payload))]
fn read_payload<K: Kind<Why = ModuleWhy>>(
    alloc: Global,
    id: u8,
    window: &mut Window<ModuleWhy>,
) -> Result<Option<K::Item>, ReadError<ModuleWhy>>
    ensures { MayRead (λ found. found) (payload id K.grammar) window.old window.new result }
{
    skip_customs(window)?;
    read_section::<K>(alloc, id, window)
}

/// Reads the section of an id whose kind a value tells, behind custom sections, where there is such a section.
#[tactic(auto, unfolding(crate::specs::Binary::payload))]
fn read_payload_of<K: KindOf<Why = ModuleWhy>>(
    alloc: Global,
    id: u8,
    kind: &K,
    window: &mut Window<ModuleWhy>,
) -> Result<Option<K::Item>, ReadError<ModuleWhy>>
    ensures { MayRead (λ found. found) (payload id (K.grammar kind.now)) window.old window.new result }
{
    skip_customs(window)?;
    if window.next() != Some(id) {
        return Ok(None);
    }
    window.byte()?;
    let read = read_sized_of(alloc, kind, window)?;
    Ok(Some(read))
}

/// Reads the items of the section of an id: none where there is no such section.
#[tactic(auto, unfolding(crate::specs::Binary::items))]
fn read_items<K: Kind<Why = ModuleWhy>>(
    alloc: Global,
    id: u8,
    window: &mut Window<ModuleWhy>,
) -> Result<Seq<K::Item>, ReadError<ModuleWhy>>
    ensures { MayRead (λ xs. xs) (items id K.grammar) window.old window.new result }
{
    let found = read_payload::<VecOf<K>>(alloc, id, window)?;
    Ok(found.unwrap_or(Seq::new(alloc)))
}

/// Reads types, imports, and functions as they are declared.
#[tactic(auto, unfolding(crate::specs::Binary::declarations))]
pub(crate) fn read_declarations(
    alloc: Global,
    window: &mut Window<ModuleWhy>,
) -> Result<Declarations, ReadError<ModuleWhy>>
    ensures { MayRead (λ d. d) declarations window.old window.new result }
{
    let types = read_items::<FuncTypes>(alloc, 1, window)?;
    let imports = read_items::<PlacedOf<Imports>>(alloc, 2, window)?;
    let funcs = read_items::<DeclaredFuncs>(alloc, 3, window)?;
    Ok(Declarations {
        types,
        imports,
        funcs,
    })
}

/// Reads tables, memories and globals.
#[tactic(auto, unfolding(crate::specs::Binary::definitions))]
pub(crate) fn read_definitions(
    alloc: Global,
    window: &mut Window<ModuleWhy>,
) -> Result<Definitions, ReadError<ModuleWhy>>
    ensures { MayRead (λ d. d) definitions window.old window.new result }
{
    let tables = read_items::<PlacedOf<Tables>>(alloc, 4, window)?;
    let memories = read_items::<PlacedOf<Memories>>(alloc, 5, window)?;
    let globals = read_items::<Globals>(alloc, 6, window)?;
    Ok(Definitions {
        tables,
        memories,
        globals,
    })
}

/// Reads exports, the function that runs first, and segments of functions.
#[tactic(auto, unfolding(crate::specs::Binary::uses))]
pub(crate) fn read_uses(
    alloc: Global,
    window: &mut Window<ModuleWhy>,
) -> Result<Uses, ReadError<ModuleWhy>>
    ensures { MayRead (λ u. u) uses window.old window.new result }
{
    let exports = read_items::<PlacedOf<Exports>>(alloc, 7, window)?;
    let start = read_payload::<PlacedOf<Indices>>(alloc, 8, window)?;
    let element_segments = read_items::<Elements>(alloc, 9, window)?;
    Ok(Uses {
        exports,
        start,
        element_segments,
    })
}

/// Reads the end of the module, behind custom sections.
#[tactic(auto, unfolding(crate::specs::Binary::module_end))]
fn read_module_end(window: &mut Window<ModuleWhy>) -> Result<(), Refusal<ModuleWhy>>
    ensures { Reads (λ _. tt) module_end window.old window.new result }
{
    skip_customs(window)?;
    let place = window.at();
    match window.next() {
        None => Ok(()),
        Some(id) => {
            if 1 <= id && id <= 12 {
                Err(Refusal {
                    place,
                    why: ModuleWhy::SectionOrder,
                })
            } else {
                Err(refused_byte(false, place, id))
            }
        }
    }
}

/// Whether something is there, or none of it is wanted.
fn is_there<T>(wanted: usize, found: &Option<T>) -> bool
    ensures { result ≡ is_there wanted found.now }
{
    found.is_some() || wanted == 0
}

/// Reads the end of a module of so many functions and segments of bytes, whose sections have to stand there.
#[tactic(auto, unfolding(crate::specs::Binary::ends))]
fn read_ends<C, S>(
    functions: usize,
    codes: &Option<C>,
    counted: u32,
    segments: &Option<S>,
    window: &mut Window<ModuleWhy>,
) -> Result<(), Refusal<ModuleWhy>>
    ensures { Reads (λ _. tt) (ends functions codes.now counted segments.now) window.old window.new result }
{
    read_module_end(window)?;
    let place = window.at();
    if is_there(functions, codes) && is_there(counted as usize, segments) {
        return Ok(());
    }
    Err(Refusal {
        place,
        why: ModuleWhy::Count,
    })
}

/// Reads the data count, the code of functions that are declared so, and segments of bytes, up to the module's end.
#[tactic(auto, unfolding(crate::specs::Binary::contents))]
pub(crate) fn read_contents(
    alloc: Global,
    declared: &[DeclaredFunc],
    window: &mut Window<ModuleWhy>,
) -> Result<Contents, ReadError<ModuleWhy>>
    ensures { MayRead (λ c. c) (contents declared.now) window.old window.new result }
{
    let told = read_payload::<Indices>(alloc, 12, window)?;
    let codes = read_payload_of(alloc, 10, &Declared { funcs: declared }, window)?;
    let segments = read_payload_of(alloc, 11, &DataCount { told }, window)?;
    read_ends(declared.len(), &codes, told.unwrap_or(0), &segments, window)?;
    Ok(Contents {
        funcs: codes.unwrap_or(Seq::new(alloc)),
        data_segments: segments.unwrap_or(Seq::new(alloc)),
    })
}
