//! A small format: its kinds of items.

use crate::why::Why;
use ca_base::{Kind, KindOf, ReadError, Window};
use std::alloc::Global;
use syntax_trees::Name;

/// Two numbers.
pub struct Pairs;

impl Kind for Pairs {
    ghost use Rattle.base_tests.specs.Sample.{pair};
    ghost use Rattle.base_tests.specs.declared.why.Why.TheVariants.{Leb, Utf8};

    type Why = Why;

    type Item = (u32, i32);

    ghost grammar = { pair (record { leb = Leb; utf8 = Utf8 }) };

    #[tactic(auto, unfolding(crate::specs::Sample::pair))]
    fn read(_alloc: Global, window: &mut Window<Why>) -> Result<(u32, i32), ReadError<Why>> {
        let first = window.u32()?;
        let second = window.s32()?;
        Ok((first, second))
    }
}

/// Numbers.
pub struct Numbers;

impl Kind for Numbers {
    ghost use Rattle.ca_base.specs.Items.{u32};
    ghost use Rattle.base_tests.specs.declared.why.Why.TheVariants.{Leb, Utf8};

    type Why = Why;

    type Item = u32;

    ghost grammar = { u32 (record { leb = Leb; utf8 = Utf8 }) };

    fn read(_alloc: Global, window: &mut Window<Why>) -> Result<u32, ReadError<Why>> {
        let read = window.u32()?;
        Ok(read)
    }
}

/// Names.
pub struct Names;

impl Kind for Names {
    ghost use Rattle.ca_base.specs.Items.{name};
    ghost use Rattle.base_tests.specs.declared.why.Why.TheVariants.{Leb, Utf8};

    type Why = Why;

    type Item = Name;

    ghost grammar = { name (record { leb = Leb; utf8 = Utf8 }) };

    fn read(alloc: Global, window: &mut Window<Why>) -> Result<Name, ReadError<Why>> {
        let text = window.name()?;
        let kept = Name::new(alloc, text)?;
        Ok(kept)
    }
}

/// What custom sections hold.
pub struct Customs;

impl Kind for Customs {
    ghost use Rattle.ca_base.specs.Items.{custom};
    ghost use Rattle.base_tests.specs.declared.why.Why.TheVariants.{Leb, Utf8};

    type Why = Why;

    type Item = ();

    ghost grammar = { custom (record { leb = Leb; utf8 = Utf8 }) };

    fn read(_alloc: Global, window: &mut Window<Why>) -> Result<(), ReadError<Why>> {
        window.custom()?;
        Ok(())
    }
}

/// Numbers behind a byte, which is the first of the item.
#[derive(Drop)]
pub struct Marked {
    /// The byte.
    pub byte: u8,
}

impl KindOf for Marked {
    ghost use Rattle.base_tests.specs.Sample.{marked};
    ghost use Rattle.base_tests.specs.declared.why.Why.TheVariants.{Leb, Utf8, Size, Unsupported};

    type Why = Why;

    type Item = (u8, u32);

    ghost grammar = { λ by. marked (record { leb = Leb; utf8 = Utf8 }) (record { unsupported = λ byte. Unsupported byte; section_size = Size }) by.byte };

    #[tactic(auto, unfolding(crate::specs::Sample::marked))]
    fn read(&self, _alloc: Global, window: &mut Window<Why>) -> Result<(u8, u32), ReadError<Why>> {
        let byte = window.marker(self.byte)?;
        let number = window.u32()?;
        Ok((byte, number))
    }
}
