//! What holds of types alone.

ghost use Rattle.laid_types.specs.SameTypes.{TypesAreToldApart};

/// The test of whether types of values are the same passes exactly where both are one type.
pub fn types_are_told_apart()
    ensures { TypesAreToldApart }
{}
