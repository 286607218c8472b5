//! Items by their numbers.

ghost use Rattle.std.specs.Prelude.{◌≡◌, Some, None, MatchOption};
ghost use Rattle.std.specs.List.{slice_get};

/// The item with this number, counted from 0, or none: a case or a label of a type.
#[tactic(auto, using(std::proofs::lemmas::Option::slice_get_past, std::proofs::lemmas::Option::slice_get_read))]
pub fn item_at<T>(items: &[T], number: u32) -> Option<&T>
    ensures { MatchOption result (slice_get items.now number ≡ None) (λ x. slice_get items.now number ≡ Some x.now) }
{
    items.get(number as usize)
}
