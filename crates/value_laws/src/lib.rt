//! What holds of values with handles and ends that are lifted, lowered and copied (Component Model, CanonicalABI.md, "Loading", "Storing",
//! "Flat Lifting", "Flat Lowering", `canon stream.read`, `canon stream.write`): definitions and laws, without a body.
//!
//! What is lifted over a table is of its type, whatever its indices name, and in its ranges (`specs/Fitting`), so that a copy can lower it.
//! What is lowered beside a table arrives (`specs/Arriving`): where the places that reallocs answer lie apart, a plain value stands in the
//! memory or in the core values, and each of its indices names in the table what the lowered value had (`specs/Carrying`). So what the
//! writer of a stream or a future has in its memory is what its reader gets (`specs/Transport`).
//!
//! - `laws`: what holds
#![tactic(auto)]

mod laws;

pub use laws::{
    carried_values_are_named, copied_elements_fit, elements_are_transported, elements_arrive,
    entered_values_arrive, lifted_values_are_in_range, lifted_values_fit,
};
