//! Rooms over a store.

ghost use Rattle.std.specs.Prelude.{◌≡◌, None};
ghost use Rattle.wasm_store.specs.Instantiation.{empty};
ghost use Rattle.copy_engine.specs.Rooms.{Same, state_of};

use crate::memories::{put_in, size_in};
use crate::nested::{HostCall, NestedTrap, realloc_in, run_realloc};
use ca_base::Fuel;
use std::alloc::Global;
use std::mem;
use value_lower::{Room, RoomEnd};
use wasm_store::Store;

/// What canonical options say of a lowering (Component Model, CanonicalABI.md, "Lifting and Lowering Context").
#[derive(Clone, Copy)]
pub struct LowerOptions {
    /// The address of the memory; where the options have none, one at which no memory is.
    pub memory: usize,
    /// The address of the function that gives out places in it, where the options have one.
    pub realloc: Option<usize>,
}

/// What a room works on, taken out of it.
#[derive(Drop)]
pub struct Taken {
    /// The store.
    pub store: Store,
    /// The fuel that is left.
    pub fuel: Fuel,
    /// The call of the host that is kept.
    pub call: Option<HostCall>,
}

/// A memory of a store in which values are lowered. A realloc runs the options' function on a stack of its own, over the same store
/// and the same fuel, where each instruction costs its unit. Such code may call no function of the host: where it does, it ends, and
/// the call is kept.
///
/// All that a lowering changes is its caller's: the store, the fuel and the call that is kept. Each call of the room says of every
/// answer what it leaves of them; the lowerings, which are made of such calls, say nothing of it where they answer want of memory.
/// What a lowering leaves is known by its answer, and is taken out by `take_out`.
#[derive(Drop)]
pub struct StoreRoom<'a> {
    store: &'a mut Store,
    fuel: &'a mut Fuel,
    call: &'a mut Option<HostCall>,
    options: LowerOptions,
}

impl<'a> StoreRoom<'a> {
    /// The room of these options over a store and its fuel. What is kept of a call of the host goes to `call`.
    pub fn new(
        store: &'a mut Store,
        fuel: &'a mut Fuel,
        call: &'a mut Option<HostCall>,
        options: LowerOptions,
    ) -> StoreRoom<'a>
        ensures same_store { result.store.ghost_name ≡ store.entry.ghost_name }
        ensures same_fuel { result.fuel.ghost_name ≡ fuel.entry.ghost_name }
        ensures same_call { result.call.ghost_name ≡ call.entry.ghost_name }
        ensures options { result.options ≡ options }
        ensures state { state_of result ≡ record { store = store.old; units = fuel.old; call = call.old } }
    {
        StoreRoom {
            store,
            fuel,
            call,
            options,
        }
    }

    /// Takes out what the room works on, so that its caller knows it where only an answer tells it. What was lent to the room is left
    /// with an empty store, with no call that is kept, and with the fuel that is left, which stands in what is taken out too. The
    /// options stay as they are.
    pub fn take_out(&mut self, alloc: Global) -> Taken
        ensures taken { record { store = result.store; units = result.fuel; call = result.call } ≡ state_of self.old }
        ensures left { state_of self.new ≡ record { store = empty; units = self.old.fuel.now; call = None } }
        ensures same { Same self.old self.new }
    {
        Taken {
            store: mem::replace(self.store, Store::new(alloc)),
            fuel: Fuel::new(self.fuel.left()),
            call: self.call.take(),
        }
    }
}

impl<'a> Room for StoreRoom<'a> {
    ghost use Rattle.copy_engine.specs.Rooms.{memory_of, answers_of, wrote_of};

    type Trap = NestedTrap;

    ghost memory = { memory_of };

    ghost answers = { answers_of };

    ghost wrote = { wrote_of };

    fn size(&self) -> u64 {
        size_in(self.store, self.options.memory)
    }

    fn put(&mut self, place: u32, bytes: &[u8]) {
        put_in(self.store, self.options.memory, place, bytes);
    }

    fn realloc(
        &mut self,
        alloc: Global,
        old: u32,
        old_size: u32,
        align: u32,
        size: u32,
    ) -> Result<u32, RoomEnd<NestedTrap>> {
        let Some(address) = realloc_in(self.store, self.options.realloc) else {
            return Err(RoomEnd::Trapped(NestedTrap::NoRealloc));
        };
        let words = [
            u64::from(old),
            u64::from(old_size),
            u64::from(align),
            u64::from(size),
        ];
        run_realloc(alloc, self.store, self.fuel, self.call, address, &words)
    }
}
