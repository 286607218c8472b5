//! Components that are made item by item.

ghost use Rattle.std.specs.Prelude.{◌≡◌, ◌∷◌, ◌++◌, [], OnOk, OnErr, IfOk};
ghost use Rattle.comp_make.specs.declared.build.BuildItem.TheVariants.{Module, Section};
ghost use Rattle.comp_make.specs.Component.{component_bytes};

use crate::lists::{push_section, push_sized};
use crate::whole::Modules;
use faults::Memory;
use std::alloc::Global;
use syntax_trees::{Bytes, ModuleTree, Seq};
use value_texts::{Text, push_all};

/// The preamble of a component: its magic number, its version and its layer.
const PREAMBLE: [u8; 8] = [0x00, 0x61, 0x73, 0x6D, 0x0D, 0x00, 0x01, 0x00];

/// An item of a component that is made.
#[derive(Drop)]
pub enum BuildItem {
    /// A core module, which stands in a section of its own.
    Module(ModuleTree),
    /// A section of other items: its id, and the bytes of what stands in it.
    Section(u8, Bytes),
}

/// A component that is made item by item: core modules as trees, and sections of other items in bytes.
#[derive(Drop)]
pub struct Build {
    /// The items, in order.
    pub items: Seq<BuildItem>,
}

/// Items, each in a section of its own.
struct ItemSections;

impl Text for ItemSections {
    ghost use Rattle.comp_make.specs.Component.{item_bytes};

    type Item = BuildItem;

    ghost text = { item_bytes };

    fn push(alloc: Global, item: &BuildItem, to: &mut Vec<u8>) -> Result<(), Memory> {
        match item {
            BuildItem::Module(tree) => push_section::<Modules>(alloc, 1, tree, to),
            BuildItem::Section(id, contents) => {
                to.push(*id)?;
                push_sized(contents.as_slice(), to)
            }
        }
    }
}

impl Build {
    /// The component without items. It takes no memory.
    pub fn new(alloc: Global) -> Build
        ensures { result.items ≡ [] }
    {
        Build {
            items: Seq::new(alloc),
        }
    }

    /// Puts a core module behind the last item. A call that fails, which is for want of memory alone, leaves the component
    /// as it was.
    pub fn module(&mut self, tree: ModuleTree) -> Result<(), Memory>
        ensures ok { OnOk result (self.new.items ≡ self.old.items ++ Module tree ∷ []) }
        ensures err { OnErr result (self.new.items ≡ self.old.items) }
    {
        self.items.push(BuildItem::Module(tree))?;
        Ok(())
    }

    /// Puts a section behind the last item: its id, and the bytes of what stands in it, of which nothing is asked. A call
    /// that fails, which is for want of memory alone, leaves the component as it was.
    pub fn section(&mut self, alloc: Global, id: u8, contents: &[u8]) -> Result<(), Memory>
        ensures ok { OnOk result (self.new.items ≡ self.old.items ++ Section id contents.now ∷ []) }
        ensures err { OnErr result (self.new.items ≡ self.old.items) }
    {
        let contents = Seq::from_vec(contents.to_vec(alloc)?);
        self.items.push(BuildItem::Section(id, contents))?;
        Ok(())
    }

    /// Puts a component behind the last item, which stands in this one. A call that fails, which is for want of memory
    /// alone, leaves the component as it was.
    pub fn component(&mut self, alloc: Global, inner: &Build) -> Result<(), Memory>
        ensures ok { OnOk result (self.new.items ≡ self.old.items ++ Section 4 (component_bytes inner.now.items) ∷ []) }
        ensures err { OnErr result (self.new.items ≡ self.old.items) }
    {
        let bytes = inner.bytes(alloc)?;
        self.items.push(BuildItem::Section(4, bytes))?;
        Ok(())
    }

    /// The bytes of the component (Component Model, the component binary format): the preamble, and a section for each
    /// item. It fails for want of memory alone.
    pub fn bytes(&self, alloc: Global) -> Result<Bytes, Memory>
        ensures { IfOk result (λ bytes. bytes ≡ component_bytes self.now.items) }
    {
        let mut bytes = Vec::new(alloc);
        bytes.extend_from_slice(&PREAMBLE)?;
        push_all::<ItemSections>(alloc, self.items.as_slice(), &mut bytes)?;
        Ok(Seq::from_vec(bytes))
    }
}
