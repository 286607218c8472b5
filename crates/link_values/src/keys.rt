//! What tells types of values apart.

ghost use Rattle.std.specs.Prelude.{◌≡◌, IfOk};
ghost use Rattle.link_values.specs.Keys.{IsKeyOfLayer, layer_form, layer_resource};

use laid_types::ValTypeLayer;
use std::alloc::{AllocError, Global};

/// What a type is, but for its resource, its labels and its parts.
#[derive(Clone, Copy, PartialEq, Eq, PartialOrd, Ord)]
pub(crate) enum Form {
    Bool,
    S8,
    U8,
    S16,
    U16,
    S32,
    U32,
    S64,
    U64,
    Char,
    String,
    Record,
    Variant,
    List,
    Tuple,
    Flags,
    Enum,
    Option,
    Result,
    Own,
    Borrow,
    Stream,
    Future,
}

/// What tells a type apart from others: its form, the number of its resource's type (0 where it is no handle), the number of the list
/// of its labels, and the numbers of its parts by their places.
#[derive(Drop, PartialEq, Eq, PartialOrd, Ord)]
pub(crate) struct ValueKey {
    pub(crate) form: Form,
    pub(crate) resource: u32,
    pub(crate) labels: usize,
    pub(crate) parts: Vec<Option<usize>>,
}

/// The form of a layer.
fn form_of(layer: &ValTypeLayer<'_, '_>) -> Form
    ensures { result ≡ layer_form layer.now }
{
    match layer {
        ValTypeLayer::Bool => Form::Bool,
        ValTypeLayer::S8 => Form::S8,
        ValTypeLayer::U8 => Form::U8,
        ValTypeLayer::S16 => Form::S16,
        ValTypeLayer::U16 => Form::U16,
        ValTypeLayer::S32 => Form::S32,
        ValTypeLayer::U32 => Form::U32,
        ValTypeLayer::S64 => Form::S64,
        ValTypeLayer::U64 => Form::U64,
        ValTypeLayer::Char => Form::Char,
        ValTypeLayer::String => Form::String,
        ValTypeLayer::Record(_) => Form::Record,
        ValTypeLayer::Variant(_) => Form::Variant,
        ValTypeLayer::List(_) => Form::List,
        ValTypeLayer::Tuple(_) => Form::Tuple,
        ValTypeLayer::Flags(_) => Form::Flags,
        ValTypeLayer::Enum(_) => Form::Enum,
        ValTypeLayer::Option(_) => Form::Option,
        ValTypeLayer::Result { .. } => Form::Result,
        ValTypeLayer::Own(_) => Form::Own,
        ValTypeLayer::Borrow(_) => Form::Borrow,
        ValTypeLayer::Stream(_) => Form::Stream,
        ValTypeLayer::Future(_) => Form::Future,
    }
}

/// The number of the type of a layer's resource, 0 where it is no handle.
fn resource_of(layer: &ValTypeLayer<'_, '_>) -> u32
    ensures { result ≡ layer_resource layer.now }
{
    match layer {
        ValTypeLayer::Own(resource) => *resource,
        ValTypeLayer::Borrow(resource) => *resource,
        _ => 0,
    }
}

/// The key of a layer, whose list of labels has this number. It fails for want of memory alone.
pub(crate) fn key_of(
    alloc: Global,
    layer: &ValTypeLayer<'_, '_>,
    labels: usize,
) -> Result<ValueKey, AllocError>
    ensures { IfOk result (λ key. IsKeyOfLayer labels key layer.now) }
{
    Ok(ValueKey {
        form: form_of(layer),
        resource: resource_of(layer),
        labels,
        parts: layer.parts(alloc)?,
    })
}
