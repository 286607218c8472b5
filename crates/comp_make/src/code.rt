//! The code of functions in bytes (Core 2.0, section 5.5.13).

use crate::instrs::Ops;
use crate::lists::push_vec;
use crate::numbers::push_unsigned;
use crate::types::val_type_byte;
use faults::Memory;
use std::alloc::Global;
use syntax_trees::{Func, Locals};
use value_texts::{Text, push_all};

/// Groups of locals.
struct LocalGroups;

impl Text for LocalGroups {
    ghost use Rattle.comp_make.specs.Code.{locals_bytes};

    type Item = Locals;

    ghost text = { locals_bytes };

    fn push(_alloc: Global, item: &Locals, to: &mut Vec<u8>) -> Result<(), Memory> {
        push_unsigned(u64::from(item.count), to)?;
        to.push(val_type_byte(item.val_type))?;
        Ok(())
    }
}

/// Locals and bodies of functions.
pub(crate) struct Codes;

impl Text for Codes {
    ghost use Rattle.comp_make.specs.Code.{code_bytes};

    type Item = Func;

    ghost text = { code_bytes };

    fn push(alloc: Global, item: &Func, to: &mut Vec<u8>) -> Result<(), Memory> {
        push_vec::<LocalGroups>(alloc, item.locals.as_slice(), to)?;
        push_all::<Ops>(alloc, item.body.ops(), to)
    }
}
