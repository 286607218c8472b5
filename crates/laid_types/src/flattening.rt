//! Core types of several parts, of which the first are kept (Component Model, CanonicalABI.md, "Flattening").

ghost use Rattle.std.specs.Prelude.{◌≡◌, ◌∷◌, ◌++◌, take, IfOk, OnOk};
ghost use Rattle.syntax_trees.specs.declared.core_type.CoreType.TheVariants.{I32};

use crate::joining::alone;
use std::alloc::{AllocError, Global};
use syntax_trees::CoreType;

/// How many core types are kept of a type: one more than a function may have parameters, so that "too many" can be told.
const MOST_KEPT: usize = 17;

/// Puts core types behind others, as many as are kept.
pub(crate) fn push_types(types: &mut Vec<CoreType>, more: &[CoreType]) -> Result<(), AllocError>
    ensures { OnOk result (types.new.items ≡ take 17 (types.old.items ++ more.now)) }
{
    types.extend_from_slice(more)?;
    types.truncate(MOST_KEPT);
    Ok(())
}

/// The number of a case, and behind it core types for the payloads, as many as are kept.
pub(crate) fn tagged(alloc: Global, payloads: &[CoreType]) -> Result<Vec<CoreType>, AllocError>
    ensures { IfOk result (λ types. types.items ≡ take 17 (I32 ∷ payloads.now)) }
{
    let mut types = alone(alloc, CoreType::I32)?;
    push_types(&mut types, payloads)?;
    Ok(types)
}
