//! Whether values are of a type, as lowering asks.

ghost use Rattle.std.specs.Prelude.{◌≡◌, ◌||◌, false, true};
ghost use Rattle.syntax_trees.specs.Ends.{has_end};
ghost use Rattle.syntax_trees.specs.Fits.{fits};
ghost use Rattle.laid_types.specs.Handles.{has_handle};
ghost use Rattle.value_lower.specs.Fitting.{AllFit};

use ca_types::fits;
use laid_types::{LaidType, NumberedType};
use syntax_trees::Value;

/// Whether a value is of a type.
pub fn is_of(value: &Value, t: &NumberedType<'_>) -> bool
    ensures { result ≡ true → fits value.now t.now.val_type ≡ true }
{
    let laid = t.laid();
    fits(value, laid.val_type())
}

/// Whether values are of a type.
#[tactic(auto, using(crate::proofs::Fit::all_fit_too))]
pub fn are_all_of(values: &[Value], t: &NumberedType<'_>) -> bool
    ensures { result ≡ true → AllFit values.now t.now.val_type }
{
    let laid = t.laid();
    let val_type = laid.val_type();
    values.iter().all(|value| fits(value, val_type))
}

/// Whether values of a type hold a handle or an end.
pub fn holds(t: &LaidType<'_>) -> bool
    ensures { result ≡ (has_handle t.now || has_end t.now) }
{
    t.has_handle() || t.has_end()
}

/// Whether a value is of a type without handles and ends.
pub fn may_lower(value: &Value, t: &LaidType<'_>) -> bool
    ensures handles { result ≡ true → has_handle t.now ≡ false }
    ensures ends { result ≡ true → has_end t.now ≡ false }
    ensures fits { result ≡ true → fits value.now t.now ≡ true }
{
    !holds(t) && fits(value, t.val_type())
}

/// Whether values are of a type without handles and ends.
#[tactic(auto, using(crate::proofs::Fit::all_fit))]
pub fn may_all_lower(values: &[Value], t: &LaidType<'_>) -> bool
    ensures handles { result ≡ true → has_handle t.now ≡ false }
    ensures ends { result ≡ true → has_end t.now ≡ false }
    ensures fit { result ≡ true → AllFit values.now t.now }
{
    !holds(t) && values.iter().all(|value| fits(value, t.val_type()))
}
