//! The reader of the whole module.

ghost use Rattle.std.specs.Prelude.{◌≡◌, IfOk};
ghost use Rattle.std.specs.Option.{option_map};
ghost use Rattle.ca_base.specs.Grammar.{MayRead};
ghost use Rattle.wasm_reader.specs.Together.{module_together};
ghost use Rattle.wasm_reader.specs.Binary.{the_module, module_of, items_of, places_of, parts_of, part_places};

use crate::declared::{Contents, Declarations, Definitions, Uses};
use crate::parted::parts_and_places;
use crate::sections::{read_contents, read_declarations, read_definitions, read_uses};
use ca_base::{Placed, ReadError, Window, apart};
use std::alloc::{AllocError, Global};
use syntax_trees::module::Export;
use syntax_trees::module_types::FuncType;
use syntax_trees::{
    DataSegment, ElementSegment, Func, Import, MemoryType, ModuleTree, Seq, TableType,
};
use wasm_code_reader::ModuleWhy;
use wasm_typing::{
    DataPlaces, ElementPlaces, FuncPlaces, GlobalPlaces, Module, ModuleParts, ModulePlaces,
};

/// The preamble of a module: its magic number and its version.
const PREAMBLE: [u8; 8] = [0x00, 0x61, 0x73, 0x6D, 0x01, 0x00, 0x00, 0x00];

/// The index of the function that runs first, apart from its place.
fn start_apart(start: Option<Placed<u32>>) -> (Option<u32>, Option<usize>)
    ensures index { result.0 ≡ option_map (λ s. s.item) start }
    ensures place { result.1 ≡ option_map (λ s. s.place) start }
{
    match start {
        None => (None, None),
        Some(placed) => (Some(placed.item), Some(placed.place)),
    }
}

/// What is declared, apart from its places.
#[derive(Drop)]
struct DeclaredParts {
    types: Seq<FuncType>,
    imports: Seq<Import>,
    import_places: Seq<usize>,
}

/// Takes what is declared apart. It fails for want of memory alone.
fn declared_parts(alloc: Global, declared: Declarations) -> Result<DeclaredParts, AllocError>
    ensures types { IfOk result (λ p. p.types ≡ declared.types) }
    ensures imports { IfOk result (λ p. p.imports ≡ items_of declared.imports) }
    ensures import_places { IfOk result (λ p. p.import_places ≡ places_of declared.imports) }
{
    let Declarations { types, imports, .. } = declared;
    let (imports, import_places) = apart(alloc, imports)?;
    Ok(DeclaredParts {
        types,
        imports,
        import_places,
    })
}

/// What is defined, apart from its places.
#[derive(Drop)]
struct DefinedParts {
    tables: Seq<TableType>,
    table_places: Seq<usize>,
    memories: Seq<MemoryType>,
    memory_places: Seq<usize>,
    globals: Seq<syntax_trees::Global>,
    global_places: Seq<GlobalPlaces>,
}

/// Takes what is defined apart. It fails for want of memory alone.
fn defined_parts(alloc: Global, defined: Definitions) -> Result<DefinedParts, AllocError>
    ensures tables { IfOk result (λ p. p.tables ≡ items_of defined.tables) }
    ensures table_places { IfOk result (λ p. p.table_places ≡ places_of defined.tables) }
    ensures memories { IfOk result (λ p. p.memories ≡ items_of defined.memories) }
    ensures memory_places { IfOk result (λ p. p.memory_places ≡ places_of defined.memories) }
    ensures globals { IfOk result (λ p. p.globals ≡ parts_of defined.globals) }
    ensures global_places { IfOk result (λ p. p.global_places ≡ part_places defined.globals) }
{
    let (tables, table_places) = apart(alloc, defined.tables)?;
    let (memories, memory_places) = apart(alloc, defined.memories)?;
    let (globals, global_places) = parts_and_places(alloc, defined.globals)?;
    Ok(DefinedParts {
        tables,
        table_places,
        memories,
        memory_places,
        globals,
        global_places,
    })
}

/// What uses the definitions, apart from its places.
#[derive(Drop)]
struct UsedParts {
    exports: Seq<Export>,
    export_places: Seq<usize>,
    start: Option<u32>,
    start_place: Option<usize>,
    element_segments: Seq<ElementSegment>,
    element_places: Seq<ElementPlaces>,
}

/// Takes what uses the definitions apart. It fails for want of memory alone.
fn used_parts(alloc: Global, used: Uses) -> Result<UsedParts, AllocError>
    ensures exports { IfOk result (λ p. p.exports ≡ items_of used.exports) }
    ensures export_places { IfOk result (λ p. p.export_places ≡ places_of used.exports) }
    ensures start { IfOk result (λ p. p.start ≡ option_map (λ s. s.item) used.start) }
    ensures start_place { IfOk result (λ p. p.start_place ≡ option_map (λ s. s.place) used.start) }
    ensures element_segments { IfOk result (λ p. p.element_segments ≡ parts_of used.element_segments) }
    ensures element_places { IfOk result (λ p. p.element_places ≡ part_places used.element_segments) }
{
    let (exports, export_places) = apart(alloc, used.exports)?;
    let (start, start_place) = start_apart(used.start);
    let (element_segments, element_places) = parts_and_places(alloc, used.element_segments)?;
    Ok(UsedParts {
        exports,
        export_places,
        start,
        start_place,
        element_segments,
        element_places,
    })
}

/// What code and data hold, apart from its places.
#[derive(Drop)]
struct HeldParts {
    funcs: Seq<Func>,
    func_places: Seq<FuncPlaces>,
    data_segments: Seq<DataSegment>,
    data_places: Seq<DataPlaces>,
}

/// Takes what code and data hold apart. It fails for want of memory alone.
fn held_parts(alloc: Global, held: Contents) -> Result<HeldParts, AllocError>
    ensures funcs { IfOk result (λ p. p.funcs ≡ parts_of held.funcs) }
    ensures func_places { IfOk result (λ p. p.func_places ≡ part_places held.funcs) }
    ensures data_segments { IfOk result (λ p. p.data_segments ≡ parts_of held.data_segments) }
    ensures data_places { IfOk result (λ p. p.data_places ≡ part_places held.data_segments) }
{
    let (funcs, func_places) = parts_and_places(alloc, held.funcs)?;
    let (data_segments, data_places) = parts_and_places(alloc, held.data_segments)?;
    Ok(HeldParts {
        funcs,
        func_places,
        data_segments,
        data_places,
    })
}

/// The tree of these parts, and their places.
fn together(
    declared: DeclaredParts,
    defined: DefinedParts,
    used: UsedParts,
    held: HeldParts,
) -> ModuleParts
    ensures { result ≡ module_together declared defined used held }
{
    ModuleParts {
        tree: ModuleTree {
            types: declared.types,
            imports: declared.imports,
            funcs: held.funcs,
            tables: defined.tables,
            memories: defined.memories,
            globals: defined.globals,
            exports: used.exports,
            start: used.start,
            element_segments: used.element_segments,
            data_segments: held.data_segments,
        },
        places: ModulePlaces {
            imports: declared.import_places,
            funcs: held.func_places,
            tables: defined.table_places,
            memories: defined.memory_places,
            globals: defined.global_places,
            exports: used.export_places,
            start: used.start_place,
            element_segments: used.element_places,
            data_segments: held.data_places,
        },
    }
}

/// What a module is made of, as its sections hold it. It fails for want of memory alone.
fn make_parts(
    alloc: Global,
    declared: Declarations,
    defined: Definitions,
    used: Uses,
    held: Contents,
) -> Result<ModuleParts, AllocError>
    ensures { IfOk result (λ m. m ≡ module_of declared defined used held) }
{
    let declared = declared_parts(alloc, declared)?;
    let defined = defined_parts(alloc, defined)?;
    let used = used_parts(alloc, used)?;
    let held = held_parts(alloc, held)?;
    Ok(together(declared, defined, used, held))
}

/// Reads a module.
#[tactic(auto, unfolding(crate::specs::Binary::the_module))]
pub(crate) fn read_the_module(
    alloc: Global,
    window: &mut Window<ModuleWhy>,
) -> Result<Module, ReadError<ModuleWhy>>
    ensures { MayRead (λ m. m) the_module window.old window.new result }
{
    window.fixed(&PREAMBLE, ModuleWhy::Magic)?;
    let declared = read_declarations(alloc, window)?;
    let defined = read_definitions(alloc, window)?;
    let used = read_uses(alloc, window)?;
    let held = read_contents(alloc, declared.funcs.as_slice(), window)?;
    let parts = make_parts(alloc, declared, defined, used, held)?;
    Ok(Module::of(parts))
}
