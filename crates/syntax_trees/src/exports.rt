//! What a component exports.

use crate::name::Name;
use crate::named::Named;
use crate::seq::Seq;
use crate::shared::Shared;
use crate::types::FuncType;

/// A function that a component exports.
#[derive(Drop)]
pub struct Export {
    /// The name under which it is called.
    pub name: Name,
    /// Its type, which other exports of the same type share.
    pub func_type: Shared<FuncType>,
}

impl Named for Export {
    ghost name = { λ e. e.name };

    fn name(&self) -> &str {
        self.name.as_str()
    }
}

/// The functions that a component exports, in order.
pub type Exports = Seq<Export>;
