//! Which types have values that no script can write.

ghost use Rattle.std.specs.Prelude.{◌≡◌};
ghost use Rattle.value_reader.specs.Host as host;

use syntax_trees::{FuncType, ValType};

/// Whether values of this type hold a handle, or the end of a stream or a future.
pub fn has_host_type(val_type: &ValType) -> bool
    ensures { result ≡ host.has_host_type val_type.now }
{
    match val_type {
        ValType::Record(fields) => {
            for field in fields.as_slice() {
                if has_host_type(field.val_type.get()) {
                    return true;
                }
            }
            false
        }
        ValType::Variant(cases) => {
            for case in cases.as_slice() {
                if let Some(payload) = &case.payload {
                    if has_host_type(payload.get()) {
                        return true;
                    }
                }
            }
            false
        }
        ValType::Tuple(parts) => {
            for part in parts.as_slice() {
                if has_host_type(part.get()) {
                    return true;
                }
            }
            false
        }
        ValType::List(part) | ValType::Option(part) => has_host_type(part.get()),
        ValType::Result { ok, err } => {
            let ok_has = match ok {
                Some(part) => has_host_type(part.get()),
                None => false,
            };
            let err_has = match err {
                Some(part) => has_host_type(part.get()),
                None => false,
            };
            ok_has || err_has
        }
        ValType::Own(_) | ValType::Borrow(_) | ValType::Stream(_) | ValType::Future(_) => true,
        _ => false,
    }
}

/// Whether a parameter or the result of a function holds a handle, or the end of a stream or a future.
pub fn func_has_host_type(func_type: &FuncType) -> bool
    ensures { result ≡ host.func_has_host_type func_type.now }
{
    for param in func_type.params.as_slice() {
        if has_host_type(param.val_type.get()) {
            return true;
        }
    }
    match &func_type.result {
        Some(part) => has_host_type(part.get()),
        None => false,
    }
}
