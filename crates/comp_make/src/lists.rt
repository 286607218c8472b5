//! Vectors, what stands behind its size, and sections (Core 2.0, sections 5.1.3 and 5.5.2), of items that are written in
//! any way.

ghost use Rattle.std.specs.Prelude.{◌≡◌, ◌++◌, OnOk};
ghost use Rattle.comp_make.specs.Lists.{sized, vec_bytes, section_bytes, items_section};

use crate::numbers::push_unsigned;
use faults::Memory;
use std::alloc::Global;
use std::marker::PhantomData;
use syntax_trees::Seq;
use value_texts::{Text, push_all};

/// Appends bytes behind their number.
pub(crate) fn push_sized(bytes: &[u8], to: &mut Vec<u8>) -> Result<(), Memory>
    ensures { OnOk result (to.new.items ≡ to.old.items ++ sized bytes.now) }
{
    push_unsigned(bytes.len() as u64, to)?;
    to.extend_from_slice(bytes)?;
    Ok(())
}

/// Appends a vector: how many items, and the bytes of each.
pub(crate) fn push_vec<T: Text>(
    alloc: Global,
    items: &[T::Item],
    to: &mut Vec<u8>,
) -> Result<(), Memory>
    ensures { OnOk result (to.new.items ≡ to.old.items ++ vec_bytes T.text items.now) }
{
    push_unsigned(items.len() as u64, to)?;
    push_all::<T>(alloc, items, to)
}

/// Items that stand behind the sizes of their bytes.
pub(crate) struct SizedOf<T> {
    of: PhantomData<T>,
}

impl<T: Text> Text for SizedOf<T> {
    ghost use Rattle.comp_make.specs.Lists.{sized};

    type Item = T::Item;

    ghost text = { λ x. sized (T.text x) };

    fn push(alloc: Global, item: &T::Item, to: &mut Vec<u8>) -> Result<(), Memory> {
        let mut bytes = Vec::new(alloc);
        T::push(alloc, item, &mut bytes)?;
        push_sized(&bytes, to)
    }
}

/// Vectors of items.
pub(crate) struct VecOf<T> {
    of: PhantomData<T>,
}

impl<T: Text> Text for VecOf<T> {
    ghost use Rattle.comp_make.specs.Lists.{vec_bytes};

    type Item = Seq<T::Item>;

    ghost text = { vec_bytes T.text };

    fn push(alloc: Global, item: &Seq<T::Item>, to: &mut Vec<u8>) -> Result<(), Memory> {
        push_vec::<T>(alloc, item.as_slice(), to)
    }
}

/// Appends a section: its id, and its content behind its size.
pub(crate) fn push_section<T: Text>(
    alloc: Global,
    id: u8,
    content: &T::Item,
    to: &mut Vec<u8>,
) -> Result<(), Memory>
    ensures { OnOk result (to.new.items ≡ to.old.items ++ section_bytes id (T.text content.now)) }
{
    to.push(id)?;
    SizedOf::<T>::push(alloc, content, to)
}

/// Appends a section of a vector of items, or nothing where there are none.
#[tactic(auto, using(crate::proofs::Emptiness::no_items, crate::proofs::Emptiness::some_items))]
pub(crate) fn push_items<T: Text>(
    alloc: Global,
    id: u8,
    items: &Seq<T::Item>,
    to: &mut Vec<u8>,
) -> Result<(), Memory>
    ensures { OnOk result (to.new.items ≡ to.old.items ++ items_section id T.text items.now) }
{
    if items.is_empty() {
        return Ok(());
    }
    push_section::<VecOf<T>>(alloc, id, items, to)
}
