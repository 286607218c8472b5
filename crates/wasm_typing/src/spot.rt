//! Parts of a module, and where they stand.

ghost use Rattle.std.specs.Prelude.{◌≡◌};
ghost use Rattle.std.specs.List.{slice_get};
ghost use Rattle.wasm_typing.specs.Spots.{place_of};

use crate::module_places::ModulePlaces;

/// A part of a module that a validation can refuse. Parts are told by their numbers in the module's lists.
#[derive(Clone, Copy, Debug)]
pub enum Spot {
    /// An import.
    Import(usize),
    /// The type's index of a function.
    Func(usize),
    /// A table.
    Table(usize),
    /// A memory.
    Memory(usize),
    /// Of a global, the instruction behind so many others of its constant expression, or the end behind all.
    Global(usize, usize),
    /// An export.
    Export(usize),
    /// The index of the function that runs first.
    Start,
    /// A segment of functions, outside its lists.
    Element(usize),
    /// Of a segment of functions, the instruction behind so many others of its offset, or the end behind all.
    ElementOffset(usize, usize),
    /// Of a segment of functions, the index behind so many others.
    ElementFunc(usize, usize),
    /// Of a function's body, the operation behind so many others.
    Op(usize, usize),
    /// A segment of bytes, outside its offset.
    Data(usize),
    /// Of a segment of bytes, the instruction behind so many others of its offset, or the end behind all.
    DataOffset(usize, usize),
}

/// The place of a number in a list.
fn place_in(places: &[usize], at: usize) -> Option<usize>
    ensures { result ≡ slice_get places.now at }
{
    places.get(at).copied()
}

/// Where a part stands, or none where it has no place.
pub fn place_of(places: &ModulePlaces, spot: Spot) -> Option<usize>
    ensures { result ≡ place_of places.now spot }
{
    match spot {
        Spot::Import(number) => place_in(places.imports.as_slice(), number),
        Spot::Func(number) => Some(places.funcs.as_slice().get(number)?.place),
        Spot::Table(number) => place_in(places.tables.as_slice(), number),
        Spot::Memory(number) => place_in(places.memories.as_slice(), number),
        Spot::Global(number, at) => {
            place_in(places.globals.as_slice().get(number)?.init.as_slice(), at)
        }
        Spot::Export(number) => place_in(places.exports.as_slice(), number),
        Spot::Start => places.start,
        Spot::Element(number) => Some(places.element_segments.as_slice().get(number)?.place),
        Spot::ElementOffset(number, at) => {
            let segment = places.element_segments.as_slice().get(number)?;
            place_in(segment.offset.as_slice(), at)
        }
        Spot::ElementFunc(number, at) => {
            let segment = places.element_segments.as_slice().get(number)?;
            place_in(segment.funcs.as_slice(), at)
        }
        Spot::Op(number, at) => place_in(places.funcs.as_slice().get(number)?.ops.as_slice(), at),
        Spot::Data(number) => Some(places.data_segments.as_slice().get(number)?.place),
        Spot::DataOffset(number, at) => {
            place_in(
                places
                    .data_segments
                    .as_slice()
                    .get(number)?
                    .offset
                    .as_slice(),
                at,
            )
        }
    }
}
