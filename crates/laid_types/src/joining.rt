//! Core types that hold what either of two values holds (Component Model, CanonicalABI.md, "Flattening").

ghost use Rattle.std.specs.Prelude.{◌≡◌, [], ◌∷◌, map, zip, IfOk};
ghost use Rattle.syntax_trees.specs.Flat.{joined, joined_lists};

use std::alloc::{AllocError, Global};
use syntax_trees::CoreType;

/// A core type that holds what either of two holds.
fn joined(one: CoreType, other: CoreType) -> CoreType
    ensures { result ≡ joined one other }
{
    match (one, other) {
        (CoreType::I32, CoreType::I32) => CoreType::I32,
        _ => CoreType::I64,
    }
}

/// The core types that hold what either of two lists holds, for the places that both have.
fn joined_pairs(
    alloc: Global,
    one: &[CoreType],
    other: &[CoreType],
) -> Result<Vec<CoreType>, AllocError>
    ensures { IfOk result (λ types. types.items ≡ map (λ p. joined p.0 p.1) (zip one.now other.now)) }
{
    one.iter()
        .zip(other)
        .map(|(one, other)| joined(*one, *other))
        .collect(alloc)
}

/// Core types that hold what either of two lists holds, place by place (Component Model, CanonicalABI.md, "Flattening":
/// `flatten_variant`). It fails for want of memory alone.
#[tactic(auto, using(syntax_trees::proofs::Joins::joined_by_parts, syntax_trees::proofs::Joins::both_within))]
pub fn joined_lists(
    alloc: Global,
    one: &[CoreType],
    other: &[CoreType],
) -> Result<Vec<CoreType>, AllocError>
    ensures { IfOk result (λ types. types.items ≡ joined_lists one.now other.now) }
{
    let mut types = joined_pairs(alloc, one, other)?;
    let both = types.len();
    types.extend_from_slice(&one[both..])?;
    types.extend_from_slice(&other[both..])?;
    Ok(types)
}

/// A core type alone. It fails for want of memory alone.
pub fn alone(alloc: Global, core_type: CoreType) -> Result<Vec<CoreType>, AllocError>
    ensures { IfOk result (λ types. types.items ≡ core_type ∷ []) }
{
    let mut types = Vec::new(alloc);
    types.push(core_type)?;
    Ok(types)
}
