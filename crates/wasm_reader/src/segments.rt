//! The items of the sections of globals, elements and data, which hold constant expressions (Core 2.0, section 5.5).

ghost use Rattle.std.specs.Prelude.{◌≡◌};
ghost use Rattle.ca_base.specs.Grammar.{Reads, MayRead};
ghost use Rattle.wasm_reader.specs.Items.{target, element_kind, byte_vec, differs_from, data_payload};

use crate::parted::Parted;
use ca_base::{Kind, KindOf, PlacedOf, ReadError, Refusal, Window, apart, read_times, read_vec};
use std::alloc::Global as Heap;
use syntax_trees::{Bytes, DataSegment, ElementSegment, Global, Seq};
use wasm_code_reader::{GlobalTypes, Indices, ModuleWhy, read_const_expr, refused_byte};
use wasm_typing::{DataPlaces, ElementPlaces, GlobalPlaces};

/// Globals (Core 2.0, section 5.5.9).
pub(crate) struct Globals;

impl Kind for Globals {
    ghost use Rattle.wasm_reader.specs.Items.{global};

    type Why = ModuleWhy;

    type Item = Parted<Global, GlobalPlaces>;

    ghost grammar = { global };

    #[tactic(auto, unfolding(crate::specs::Items::global))]
    fn read(
        alloc: Heap,
        window: &mut Window<ModuleWhy>,
    ) -> Result<Parted<Global, GlobalPlaces>, ReadError<ModuleWhy>> {
        let place = window.at();
        let global_type = GlobalTypes::read(alloc, window)?;
        let read = read_const_expr(alloc, window)?;
        Ok(Parted {
            part: Global {
                global_type,
                init: read.instrs,
            },
            places: GlobalPlaces {
                place,
                init: read.places,
            },
        })
    }
}

/// Reads the kind of an active segment, and the index behind it where there is one.
#[tactic(auto, unfolding(crate::specs::Items::target))]
fn read_target(window: &mut Window<ModuleWhy>) -> Result<Option<u32>, Refusal<ModuleWhy>>
    ensures { Reads (λ t. t) target window.old window.new result }
{
    let place = window.at();
    let first = window.next().unwrap_or(0);
    let kind = window.u32()?;
    match kind {
        0 => Ok(None),
        2 => Ok(Some(window.u32()?)),
        _ => Err(refused_byte(false, place, first)),
    }
}

/// Reads the byte that tells that elements are functions, where the kind of their segment has one.
fn read_element_kind(
    table: Option<u32>,
    window: &mut Window<ModuleWhy>,
) -> Result<(), Refusal<ModuleWhy>>
    ensures { Reads (λ _. tt) (element_kind table) window.old window.new result }
{
    match table {
        None => Ok(()),
        Some(_) => {
            window.marker(0)?;
            Ok(())
        }
    }
}

/// Segments of functions (Core 2.0, section 5.5.12).
pub(crate) struct Elements;

impl Kind for Elements {
    ghost use Rattle.wasm_reader.specs.Items.{element_segment};

    type Why = ModuleWhy;

    type Item = Parted<ElementSegment, ElementPlaces>;

    ghost grammar = { element_segment };

    #[tactic(auto, unfolding(crate::specs::Items::element_segment))]
    fn read(
        alloc: Heap,
        window: &mut Window<ModuleWhy>,
    ) -> Result<Parted<ElementSegment, ElementPlaces>, ReadError<ModuleWhy>> {
        let place = window.at();
        let table = read_target(window)?;
        let offset = read_const_expr(alloc, window)?;
        read_element_kind(table, window)?;
        let indices = read_vec::<PlacedOf<Indices>>(alloc, window)?;
        let (funcs, func_places) = apart(alloc, indices)?;
        Ok(Parted {
            part: ElementSegment {
                table: table.unwrap_or(0),
                offset: offset.instrs,
                funcs,
            },
            places: ElementPlaces {
                place,
                offset: offset.places,
                funcs: func_places,
            },
        })
    }
}

/// Reads a vector of bytes.
#[tactic(auto, unfolding(crate::specs::Items::byte_vec))]
fn read_byte_vec(alloc: Heap, window: &mut Window<ModuleWhy>) -> Result<Bytes, ReadError<ModuleWhy>>
    ensures { MayRead (λ bytes. bytes) byte_vec window.old window.new result }
{
    let count = window.u32()?;
    let bytes = window.take(count as usize)?;
    let kept = Vec::from_slice(alloc, bytes)?;
    Ok(Seq::from_vec(kept))
}

/// Segments of bytes (Core 2.0, section 5.5.14).
pub(crate) struct DataSegments;

impl Kind for DataSegments {
    ghost use Rattle.wasm_reader.specs.Items.{data_segment};

    type Why = ModuleWhy;

    type Item = Parted<DataSegment, DataPlaces>;

    ghost grammar = { data_segment };

    #[tactic(auto, unfolding(crate::specs::Items::data_segment))]
    fn read(
        alloc: Heap,
        window: &mut Window<ModuleWhy>,
    ) -> Result<Parted<DataSegment, DataPlaces>, ReadError<ModuleWhy>> {
        let place = window.at();
        let memory = read_target(window)?;
        let offset = read_const_expr(alloc, window)?;
        let bytes = read_byte_vec(alloc, window)?;
        Ok(Parted {
            part: DataSegment {
                memory: memory.unwrap_or(0),
                offset: offset.instrs,
                bytes,
            },
            places: DataPlaces {
                place,
                offset: offset.places,
            },
        })
    }
}

/// Whether a count that was told differs from a number.
fn differs_from(counted: Option<u32>, number: u32) -> bool
    ensures { result ≡ differs_from counted number }
{
    match counted {
        None => false,
        Some(count) => count != number,
    }
}

/// What the data count tells, where there is one.
#[derive(Clone, Copy)]
pub(crate) struct DataCount {
    pub told: Option<u32>,
}

// The payload of the data section.
impl KindOf for DataCount {
    ghost use Rattle.wasm_reader.specs.Items.{data_payload};

    type Why = ModuleWhy;

    type Item = Seq<Parted<DataSegment, DataPlaces>>;

    ghost grammar = { λ count. data_payload count.told };

    #[tactic(auto, unfolding(crate::specs::Items::data_payload))]
    fn read(
        &self,
        alloc: Heap,
        window: &mut Window<ModuleWhy>,
    ) -> Result<Seq<Parted<DataSegment, DataPlaces>>, ReadError<ModuleWhy>> {
        let place = window.at();
        let count = window.u32()?;
        if differs_from(self.told, count) {
            return Err(ReadError::Fault(Refusal {
                place,
                why: ModuleWhy::Count,
            }));
        }
        read_times::<DataSegments>(alloc, count, window)
    }
}
