//! Sizes and alignments (Component Model, CanonicalABI.md, "Alignment" and "Element Size").

ghost use Rattle.std.specs.Prelude.{◌≡◌, ◌^◌, min};
ghost use Rattle.laid_types.specs.Layout.{laid};
ghost use Rattle.layouts.specs.Limited.{limited, as_laid, InReach};

use layouts::{Laying, bits_size};
use syntax_trees::ValType;

/// How values of a type lie in memory.
#[tactic(auto, using(crate::proofs::Equations::laid_of_tuple, crate::proofs::Equations::laid_of_record, crate::proofs::Equations::laid_of_variant, crate::proofs::Equations::laid_of_result, layouts::proofs::Layouts::closed_behind_all, layouts::proofs::Layouts::tagged_behind_all))]
fn layout_of(val_type: &ValType) -> Laying
    ensures value { as_laid result ≡ limited (laid val_type.now) }
    ensures reach { InReach (as_laid result) }
{
    match val_type {
        ValType::Bool | ValType::S8 | ValType::U8 => Laying::scalar(1),
        ValType::S16 | ValType::U16 => Laying::scalar(2),
        ValType::S32 | ValType::U32 | ValType::Char => Laying::scalar(4),
        ValType::S64 | ValType::U64 => Laying::scalar(8),
        ValType::Own(_) | ValType::Borrow(_) | ValType::Stream(_) | ValType::Future(_) =>
            Laying::scalar(4),
        ValType::String | ValType::List(_) => Laying::slice(),
        ValType::Record(fields) => {
            let mut row = Laying::nothing();
            for field in fields.as_slice() {
                row = row.followed(layout_of(field.val_type.get()));
            }
            row.closed()
        }
        ValType::Tuple(parts) => {
            let mut row = Laying::nothing();
            for part in parts.as_slice() {
                row = row.followed(layout_of(part.get()));
            }
            row.closed()
        }
        ValType::Variant(cases) => {
            let mut payload = Laying::nothing();
            for case in cases.as_slice() {
                if let Some(part) = &case.payload {
                    payload = payload.joined(layout_of(part.get()));
                }
            }
            payload.tagged(cases.len())
        }
        ValType::Flags(labels) => Laying::scalar(bits_size(labels.len())),
        ValType::Enum(labels) => Laying::nothing().tagged(labels.len()),
        ValType::Option(part) => layout_of(part.get()).tagged(2),
        ValType::Result { ok, err } => {
            let mut payload = Laying::nothing();
            if let Some(part) = ok {
                payload = payload.joined(layout_of(part.get()));
            }
            if let Some(part) = err {
                payload = payload.joined(layout_of(part.get()));
            }
            payload.tagged(2)
        }
    }
}

/// How many bytes a value of this type takes in memory, or 2^64 where it takes more (Component Model, CanonicalABI.md,
/// "Element Size").
pub fn size(val_type: &ValType) -> u128
    ensures { result ≡ min (laid val_type.now).size (2 ^ 64) }
{
    layout_of(val_type).size
}

/// The number of which the place of a value of this type is a multiple: 1, 2, 4 or 8 (Component Model,
/// CanonicalABI.md, "Alignment").
pub fn align(val_type: &ValType) -> u32
    ensures { result ≡ (laid val_type.now).align }
{
    layout_of(val_type).align
}
