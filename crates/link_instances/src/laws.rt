//! What holds of instances that are seen as a type.

ghost use Rattle.link_instances.specs.Laws.{SeenNamed, ExportsSeenTwice, SeenTwice, SeenExportsFit, SeenFits, LackingListed, FitListed, FitsLacksNone};

/// An instance that is seen as a type that it is of has under a name what it has there, as the type asks for it. What is seen as
/// a type, and that as another, is of the other, and is seen as the other alone.
pub fn instances_are_seen()
    ensures named { SeenNamed }
    ensures exports_twice { ExportsSeenTwice }
    ensures twice { SeenTwice }
    ensures exports_fit { SeenExportsFit }
    ensures fits { SeenFits }
{}

/// What an instance lacks of a type, and whether it is of it, is told export by export; and an instance of a type lacks nothing.
pub fn types_ask_in_order()
    ensures lacking { LackingListed }
    ensures fit { FitListed }
    ensures none { FitsLacksNone }
{}
