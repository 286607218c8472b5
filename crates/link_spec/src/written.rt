//! What is written, as linking asks for it: the layers of primitive types, and the sorts and the indices of what imports and exports
//! are to be (Component Model, Explainer.md, "Type Definitions" and "Import and Export Definitions").

ghost use Rattle.std.specs.Prelude.{◌≡◌, [], List};
ghost use Rattle.syntax_trees.specs.declared.types.ValType.{ValType};
ghost use Rattle.laid_types.specs.Layers.{type_of, part_numbers};
ghost use Rattle.link_spec.specs.Types as types_read;

use comp_tree::{ExternDesc, PrimValType, Sort};
use laid_types::ValTypeLayer;

/// The layer of a primitive type.
pub fn layer_of<'s, 'a>(val_type: PrimValType) -> ValTypeLayer<'s, 'a>
    ensures is { (values : List ValType) → type_of values result ≡ types_read.primitive val_type }
    ensures parts { part_numbers result ≡ [] }
{
    match val_type {
        PrimValType::Bool => ValTypeLayer::Bool,
        PrimValType::S8 => ValTypeLayer::S8,
        PrimValType::U8 => ValTypeLayer::U8,
        PrimValType::S16 => ValTypeLayer::S16,
        PrimValType::U16 => ValTypeLayer::U16,
        PrimValType::S32 => ValTypeLayer::S32,
        PrimValType::U32 => ValTypeLayer::U32,
        PrimValType::S64 => ValTypeLayer::S64,
        PrimValType::U64 => ValTypeLayer::U64,
        PrimValType::Char => ValTypeLayer::Char,
        PrimValType::String => ValTypeLayer::String,
    }
}

/// The sort of what an export is to be.
pub fn sort_of(desc: ExternDesc) -> Sort
    ensures { result ≡ types_read.sort_of desc }
{
    match desc {
        ExternDesc::Func(_) => Sort::Func,
        ExternDesc::TypeEq(_) => Sort::Type,
        ExternDesc::Instance(_) => Sort::Instance,
        ExternDesc::Resource => Sort::Type,
    }
}

/// The index of its type, if it has one.
pub fn desc_index(desc: ExternDesc) -> Option<u32>
    ensures { result ≡ types_read.desc_index desc }
{
    match desc {
        ExternDesc::Func(index) => Some(index),
        ExternDesc::TypeEq(index) => Some(index),
        ExternDesc::Instance(index) => Some(index),
        ExternDesc::Resource => None,
    }
}
