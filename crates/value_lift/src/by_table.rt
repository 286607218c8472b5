//! Lifting over the table of handles of a component instance.

ghost use Rattle.std.specs.Prelude.{◌≡◌, ◌≤◌, ◌^◌};
ghost use Rattle.value_lift.specs.Tables.{MostLends, FewLends};

use crate::counting::count;
use crate::indices::{borrow_at, end_at, own_at};
use crate::ledger::Ledger;
use crate::moved::Moved;
use crate::named::Named;
use crate::trap::{LiftError, LiftTrap};
use handle_table::Table;
use laid_types::NumberedType;
use res_handles::Entry;
use std::alloc::Global;
use std::marker::Model;
use std::mem;
use syntax_trees::Seq;

/// Keeps how much may be counted still, the table, and what has moved in it. Each handle may be lent as often as something may be
/// counted still.
#[derive(Drop)]
pub(crate) struct ByTable<E: Entry<EndType = usize> + Drop> {
    left: u32,
    handles: Table<E>,
    moved: Seq<Moved>,
}

impl<E: Entry<EndType = usize> + Drop> Model for ByTable<E> {
    ghost use Rattle.value_lift.specs.Tables.{Kept, FewLends};

    ghost Value = { Kept E };

    ghost view = { λ t. record { left = t.left; slots = t.handles.slots; moved = t.moved } };

    ghost invariant = { λ t. FewLends E.view t.left t.handles.slots };
}

impl<E: Entry<EndType = usize> + Drop> ByTable<E> {
    /// Takes the table, and what has moved so far, out of where they stand.
    #[tactic(auto, using(crate::proofs::Lends::few_at_first))]
    pub(crate) fn begun(
        alloc: Global,
        left: u32,
        handles: &mut Table<E>,
        moved: &mut Seq<Moved>,
    ) -> ByTable<E>
        requires left { left ≤ 134217729 }
        requires lends { MostLends E.view (2 ^ 63) handles.old.slots }
        ensures { result ≡ record { left = left; slots = handles.old.slots; moved = moved.old } }
    {
        ByTable {
            left,
            handles: mem::replace(handles, Table::new(alloc)),
            moved: mem::replace(moved, Seq::new(alloc)),
        }
    }

    /// Puts them back.
    pub(crate) fn ended(self, handles: &mut Table<E>, moved: &mut Seq<Moved>)
        ensures slots { handles.new.slots ≡ self.slots }
        ensures moved { moved.new ≡ self.moved }
        ensures lends { FewLends E.view self.left self.slots }
    {
        let ByTable {
            handles: table,
            moved: all,
            ..
        } = self;
        drop(mem::replace(handles, table));
        drop(mem::replace(moved, all));
    }
}

impl<E: Entry<EndType = usize> + Drop> Ledger for ByTable<E> {
    ghost use Rattle.laid_types.specs.SameTypes.{AreDistinct};
    ghost use Rattle.value_lift.specs.Tables as tables;

    ghost Kept = { tables.Kept E };

    ghost Stop = { tables.Stop E };

    ghost kept = { λ k. k };

    ghost ledger = { λ types. tables.by_table E.view E.made E.end_type types };

    ghost knows = { AreDistinct };

    fn count(&mut self, many: u32, place: u64) -> Result<(), LiftTrap> {
        count(many, place, &mut self.left)
    }

    fn take(
        &mut self,
        named: Named,
        index: u32,
        place: u64,
        t: &NumberedType<'_>,
    ) -> Result<u32, LiftError> {
        count(1, place, &mut self.left)?;
        match named {
            Named::Own(resource) => own_at(&mut self.handles, index, place, resource),
            Named::Borrow(resource) => {
                borrow_at(&mut self.handles, &mut self.moved, index, place, resource)
            }
            Named::Stream | Named::Future => {
                end_at(&mut self.handles, &mut self.moved, index, place, t)
            }
        }
    }
}
