//! What words stand for, of which later words take their parts.

use std::alloc::Global;
use syntax_trees::Seq;

/// What words stand for. A later word takes the last ones as its parts.
#[derive(Drop)]
pub(crate) struct Stack<T> {
    items: Vec<T>,
}

impl<T: Drop> Stack<T> {
    /// Nothing yet.
    pub(crate) fn new(alloc: Global) -> Stack<T> {
        Stack {
            items: Vec::new(alloc),
        }
    }

    /// Puts an item behind the others.
    pub(crate) fn put(&mut self, item: T) -> Option<()> {
        self.items.push(item).ok()
    }

    /// Takes the last item.
    pub(crate) fn take(&mut self) -> Option<T> {
        self.items.pop()
    }

    /// Takes so many last items, which stay in order.
    pub(crate) fn take_all(&mut self, alloc: Global, count: &str) -> Option<Seq<T>> {
        let mut taken = Vec::new(alloc);
        for _ in 0..count.parse::<u32>().ok()? {
            taken.push(self.take()?).ok()?;
        }
        taken.reverse();
        Some(Seq::from_vec(taken))
    }

    /// The last item.
    pub(crate) fn last(&self) -> Option<&T> {
        self.items.last()
    }

    /// All that no word took.
    pub(crate) fn into_vec(self) -> Vec<T> {
        self.items
    }
}
