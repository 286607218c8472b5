//! The layers of types, by number.

ghost use Rattle.std.specs.Prelude.{◌≡◌, ℕ, [], ◌∷◌, ◌++◌, length, None, IfOk, OnOk, OnErr};
ghost use Rattle.link_values.specs.Numbering.{AreApart, IsAdded, IsNumberOf};

use std::alloc::{AllocError, Global};
use std::collections::BTreeMap;
use std::marker::Model;

/// The outer layer of a type, over the numbers of the layers that it stands on, of value types, and of resources.
#[derive(Clone, Copy, PartialEq, Eq, PartialOrd, Ord)]
pub enum TypeLayer {
    /// A value type.
    Value(usize),
    /// A function type.
    Func(usize),
    /// A type of resources, by its number.
    Resource(usize),
    /// A type of instances.
    Instance(usize),
}

/// What an export is.
#[derive(Clone, Copy, PartialEq, Eq, PartialOrd, Ord)]
pub enum ExternLayer {
    /// A function of a type.
    Func(usize),
    /// A type.
    Type(TypeLayer),
    /// An instance of a type.
    Instance(usize),
}

/// A layer of a function type or of a type of instances, over the numbers of the layers that it stands on, of names, and of value
/// types.
#[derive(Clone, Copy, PartialEq, Eq, PartialOrd, Ord)]
pub enum Layer {
    /// No parameters.
    NoParams,
    /// A parameter before others.
    Param {
        /// Its label.
        label: usize,
        /// The type of its values.
        val_type: usize,
        /// The parameters behind it.
        others: usize,
    },
    /// A function type.
    Func {
        /// Its parameters.
        params: usize,
        /// The type of its result, if it has one.
        returned: Option<usize>,
    },
    /// No exports.
    NoExterns,
    /// An export behind others.
    Extern {
        /// The exports before it.
        before: usize,
        /// Its name.
        name: usize,
        /// What it is.
        item: ExternLayer,
    },
}

/// Layers, each distinct one once. A layer's number is its place. Contracts see the layers, in order.
#[derive(Drop)]
pub struct Layers {
    layers: Vec<Layer>,
    numbers: BTreeMap<Layer, usize>,
}

impl Model for Layers {
    ghost use Rattle.std.specs.Prelude.{ℕ, List};
    ghost use Rattle.link_values.specs.declared.layers.Layer.{Layer};
    ghost use Rattle.link_values.specs.Numbering.{Numbers};

    ghost Value = { List Layer };

    ghost use Rattle.link_values.specs.Order.{number_in};

    ghost view = { λ n. n.layers.items };

    ghost invariant = { λ n. Numbers (number_in n.numbers) n.layers.items };
}

impl Layers {
    /// No layers. They take no memory.
    pub fn new(alloc: Global) -> Layers
        ensures { result ≡ [] }
    {
        Layers {
            layers: Vec::new(alloc),
            numbers: BTreeMap::new(alloc),
        }
    }

    /// The number of a layer, where it is there. No layer is there twice.
    pub fn find(&self, layer: Layer) -> Option<usize>
        ensures number { IsNumberOf self.now layer result }
        ensures apart { AreApart self.now }
    {
        self.numbers.get(&layer).copied()
    }

    /// The number of a layer, which is added behind the others where it is not there. It fails for want of memory alone, and
    /// then adds none.
    pub fn number_of(&mut self, layer: Layer) -> Result<usize, AllocError>
        ensures ok { IfOk result (λ number. IsAdded self.old layer number self.new) }
        ensures err { OnErr result (self.new ≡ self.old) }
        ensures apart { AreApart self.new }
    {
        match self.find(layer) {
            Some(number) => Ok(number),
            None => Ok(self.add(layer)?),
        }
    }

    /// Adds a layer that is not there, and answers its number.
    fn add(&mut self, layer: Layer) -> Result<usize, AllocError>
        requires { IsNumberOf self.old layer None }
        ensures number { IfOk result (λ number. number ≡ length self.old) }
        ensures ok { OnOk result (self.new ≡ self.old ++ layer ∷ []) }
        ensures err { OnErr result (self.new ≡ self.old) }
        ensures apart { AreApart self.new }
    {
        let number = self.layers.len();
        self.layers.reserve(1)?;
        self.numbers.insert(layer, number)?;
        self.layers.push_reserved(layer);
        Ok(number)
    }
}
