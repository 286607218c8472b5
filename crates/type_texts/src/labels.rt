//! What labels make.

use crate::stack::Stack;
use std::alloc::Global;
use syntax_trees::{Case, Field, Name, Seq, Shared, ValType};

/// Types that later words take as their parts.
pub(crate) type Types = Stack<Shared<ValType>>;

/// The name of a label, in which `%20` stands for a space and `%0a` for a line feed.
fn name_of(alloc: Global, label: &str) -> Option<Name> {
    let spaced = label.replace(alloc, "%20", " ").ok()?;
    let text = spaced.as_str().replace(alloc, "%0a", "\n").ok()?;
    Name::new(alloc, text.as_str()).ok()
}

/// Something that has a label, and may hold the last of the types before it.
pub(crate) trait Labelled {
    /// What a label makes.
    fn of_label(alloc: Global, label: &str, before: &mut Types) -> Option<Self>;
}

impl Labelled for Name {
    fn of_label(alloc: Global, label: &str, _before: &mut Types) -> Option<Name> {
        name_of(alloc, label)
    }
}

impl Labelled for Field {
    fn of_label(alloc: Global, label: &str, before: &mut Types) -> Option<Field> {
        let label = name_of(alloc, label)?;
        let val_type = before.take()?;
        Some(Field { label, val_type })
    }
}

impl Labelled for Case {
    /// A case has a payload where a star stands behind its label.
    fn of_label(alloc: Global, label: &str, before: &mut Types) -> Option<Case> {
        let Some(label) = label.strip_suffix('*') else {
            let label = name_of(alloc, label)?;
            return Some(Case {
                label,
                payload: None,
            });
        };
        let label = name_of(alloc, label)?;
        let payload = Some(before.take()?);
        Some(Case { label, payload })
    }
}

/// What labels with a comma between them make, in order. The last one takes the last type.
pub(crate) fn all_labelled<T: Labelled + Drop>(
    alloc: Global,
    labels: &str,
    before: &mut Types,
) -> Option<Seq<T>> {
    let mut items = Vec::new(alloc);
    for label in labels.rsplit(',') {
        items.push(T::of_label(alloc, label, before)?).ok()?;
    }
    items.reverse();
    Some(Seq::from_vec(items))
}

/// So many labels, all alike.
pub(crate) fn alike(alloc: Global, count: &str) -> Option<String> {
    let others = count.parse::<u16>().ok()?.checked_sub(1)?;
    let mut labels = "l,".repeat(alloc, usize::from(others)).ok()?;
    labels.push('l').ok()?;
    Some(labels)
}
