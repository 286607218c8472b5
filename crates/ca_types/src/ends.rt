//! Which types hold the end of a stream or a future.

ghost use Rattle.std.specs.Prelude.{◌≡◌};
ghost use Rattle.syntax_trees.specs.Ends.{has_end};

use syntax_trees::ValType;

/// Whether values of this type hold the end of a stream or a future.
pub fn has_end(val_type: &ValType) -> bool
    ensures { result ≡ has_end val_type.now }
{
    match val_type {
        ValType::Record(fields) => {
            for field in fields.as_slice() {
                if has_end(field.val_type.get()) {
                    return true;
                }
            }
            false
        }
        ValType::Variant(cases) => {
            for case in cases.as_slice() {
                if let Some(payload) = &case.payload {
                    if has_end(payload.get()) {
                        return true;
                    }
                }
            }
            false
        }
        ValType::Tuple(parts) => {
            for part in parts.as_slice() {
                if has_end(part.get()) {
                    return true;
                }
            }
            false
        }
        ValType::List(part) | ValType::Option(part) => has_end(part.get()),
        ValType::Result { ok, err } => {
            let ok_has = match ok {
                Some(part) => has_end(part.get()),
                None => false,
            };
            let err_has = match err {
                Some(part) => has_end(part.get()),
                None => false,
            };
            ok_has || err_has
        }
        ValType::Stream(_) | ValType::Future(_) => true,
        _ => false,
    }
}
