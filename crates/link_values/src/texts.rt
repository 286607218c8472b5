//! The texts of labels.

ghost use Rattle.std.specs.Prelude.{◌≡◌, map, IfOk};

use std::alloc::{AllocError, Global};
use syntax_trees::Name;

/// The texts of labels. It fails for want of memory alone.
pub fn label_texts<'a>(alloc: Global, labels: &'a [Name]) -> Result<Vec<&'a str>, AllocError>
    ensures { IfOk result (λ texts. map (λ l. l.now) texts.items ≡ labels.now) }
{
    let mut texts = Vec::new(alloc);
    for label in labels {
        texts.push(label.as_str())?;
    }
    Ok(texts)
}
