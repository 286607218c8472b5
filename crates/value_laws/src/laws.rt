//! What holds of values with handles and ends.

ghost use Rattle.std.specs.Prelude.{ℕ, List};
ghost use Rattle.syntax_trees.specs.declared.types.ValType.{ValType};
ghost use Rattle.value_lower.specs.Tables.{tabled, IsEntry};
ghost use Rattle.copy_engine.specs.Answering.{Setting};
ghost use Rattle.copy_engine.specs.Hosted.{hosted_rooms};
ghost use Rattle.lowering_laws.specs.ValueRooms.{FollowedOver};
ghost use Rattle.value_laws.specs.Fitting.{LoadsFit, ListsFit, WordsFit, CopiesFit, LoadsAreInRange, ListsAreInRange, WordsAreInRange};
ghost use Rattle.value_laws.specs.Carrying.{CarriedAreNamed};
ghost use Rattle.value_laws.specs.Arriving.{StoredArrive, ListsArrive, PlacedArrive, LoweredArrive};
ghost use Rattle.value_laws.specs.Transport.{CopiesTransport};

use res_handles::Entry;
use value_lower::Room;

/// What `load`, `load_list` and `lift_flat` of value_lift answer over a table fits its type. So it can be lowered again.
pub fn lifted_values_fit<E: Entry<EndType = usize>>()
    ensures loads { (types : List ValType) → LoadsFit E.view E.made E.end_type types }
    ensures lists { (types : List ValType) → ListsFit E.view E.made E.end_type types }
    ensures words { (types : List ValType) → WordsFit E.view E.made E.end_type types }
{}

/// What they answer, from a memory of bytes and over a table that names 32-bit numbers, is in its ranges: so it arrives where it is lowered.
pub fn lifted_values_are_in_range<E: Entry<EndType = usize>>()
    ensures loads { (types : List ValType) → LoadsAreInRange E.view E.made E.end_type types }
    ensures lists { (types : List ValType) → ListsAreInRange E.view E.made E.end_type types }
    ensures words { (types : List ValType) → WordsAreInRange E.view E.made E.end_type types }
{}

/// No copy comes to elements that are not of their type.
pub fn copied_elements_fit<E: Entry<EndType = usize>>()
    ensures { CopiesFit E.view E.made E.made_end E.end_type }
{}

/// What `store`, `store_list`, `lower_placed` and `lower_flat` of value_lower leave in a room and its table: over all answers of the room's
/// reallocs that lie apart, a plain value stands there, whose indices name in the table what the value had that was lowered; but for a
/// borrow of a resource that the instance defines, which stands as its representation. Ends are told by the numbers of their types among
/// some types, and borrows count for a task. Each plan that is followed to its core values is followed over some answers.
pub fn entered_values_arrive<R: Room, E: Entry<EndType = usize>>()
    ensures over { (task : ℕ) (types : List ValType) → FollowedOver (tabled R.memory R.answers R.wrote (IsEntry E.made E.made_end task types)) }
    ensures stored { (task : ℕ) (types : List ValType) (home : List ℕ) → StoredArrive (tabled R.memory R.answers R.wrote (IsEntry E.made E.made_end task types)) (λ p. p.1) (IsEntry E.made E.made_end task types) home }
    ensures lists { (task : ℕ) (types : List ValType) (home : List ℕ) → ListsArrive (tabled R.memory R.answers R.wrote (IsEntry E.made E.made_end task types)) (λ p. p.1) (IsEntry E.made E.made_end task types) home }
    ensures placed { (task : ℕ) (types : List ValType) (home : List ℕ) → PlacedArrive (tabled R.memory R.answers R.wrote (IsEntry E.made E.made_end task types)) (λ p. p.1) (IsEntry E.made E.made_end task types) home }
    ensures flat { (task : ℕ) (types : List ValType) (home : List ℕ) → LoweredArrive (tabled R.memory R.answers R.wrote (IsEntry E.made E.made_end task types)) (λ p. p.1) (IsEntry E.made E.made_end task types) home }
{}

/// The same of what `lower` and `lower_list` of copy_engine leave in a store and the table of the instance, and so of the elements of a
/// copy.
pub fn elements_arrive<E: Entry<EndType = usize>>()
    ensures over { (to : Setting) (task : ℕ) (types : List ValType) → FollowedOver (hosted_rooms E.view (IsEntry E.made E.made_end task types) to) }
    ensures stored { (to : Setting) (task : ℕ) (types : List ValType) (home : List ℕ) → StoredArrive (hosted_rooms E.view (IsEntry E.made E.made_end task types) to) (λ p. p.slots) (IsEntry E.made E.made_end task types) home }
    ensures lists { (to : Setting) (task : ℕ) (types : List ValType) (home : List ℕ) → ListsArrive (hosted_rooms E.view (IsEntry E.made E.made_end task types) to) (λ p. p.slots) (IsEntry E.made E.made_end task types) home }
    ensures placed { (to : Setting) (task : ℕ) (types : List ValType) (home : List ℕ) → PlacedArrive (hosted_rooms E.view (IsEntry E.made E.made_end task types) to) (λ p. p.slots) (IsEntry E.made E.made_end task types) home }
    ensures flat { (to : Setting) (task : ℕ) (types : List ValType) (home : List ℕ) → LoweredArrive (hosted_rooms E.view (IsEntry E.made E.made_end task types) to) (λ p. p.slots) (IsEntry E.made E.made_end task types) home }
{}

/// Behind a copy of some elements, from a memory of bytes and a table that names 32-bit numbers, the values that stood in the writer's memory
/// were these; and they arrive at the reader's place and in its table, where the places that reallocs answer lie apart.
pub fn elements_are_transported<E: Entry<EndType = usize>>()
    ensures { CopiesTransport E.view E.made E.made_end E.end_type }
{}

/// A plain value that carries another one is that with each index replaced by what it names in the table, but for a borrow of a resource that
/// the instance defines.
pub fn carried_values_are_named<E: Entry<EndType = usize>>()
    ensures { CarriedAreNamed E.view E.made E.made_end }
{}
