//! Types that have neither parts nor labels nor a resource.

ghost use Rattle.std.specs.Prelude.{◌≡◌, ℕ, List, [], IfSome};
ghost use Rattle.syntax_trees.specs.declared.types.ValType.{ValType};
ghost use Rattle.laid_types.specs.Layers.{type_of, part_numbers};
ghost use Rattle.link_values.specs.Resources as resources;

use laid_types::ValTypeLayer;
use syntax_trees::ValType;

/// The layer of a type that has neither parts nor labels nor a resource.
pub fn plain_layer(val_type: &ValType) -> Option<ValTypeLayer<'static, 'static>>
    ensures there { IfSome result (λ layer. part_numbers layer ≡ []) }
    ensures same { IfSome result (λ layer. (f : ℕ → ℕ) (values : List ValType) → type_of values layer ≡ resources.renumbered f val_type.now) }
{
    match val_type {
        ValType::Bool => Some(ValTypeLayer::Bool),
        ValType::S8 => Some(ValTypeLayer::S8),
        ValType::U8 => Some(ValTypeLayer::U8),
        ValType::S16 => Some(ValTypeLayer::S16),
        ValType::U16 => Some(ValTypeLayer::U16),
        ValType::S32 => Some(ValTypeLayer::S32),
        ValType::U32 => Some(ValTypeLayer::U32),
        ValType::S64 => Some(ValTypeLayer::S64),
        ValType::U64 => Some(ValTypeLayer::U64),
        ValType::Char => Some(ValTypeLayer::Char),
        ValType::String => Some(ValTypeLayer::String),
        _ => None,
    }
}
