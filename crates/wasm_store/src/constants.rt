//! The values of constant expressions (Core 2.0, section 4.4.11).

ghost use Rattle.std.specs.Prelude.{◌≡◌};
ghost use Rattle.wasm_store.specs.Instantiation.{const_value, init_value};

use crate::store::Store;
use syntax_trees::ConstInstr;

impl Store {
    /// The value of a constant expression over globals of these addresses.
    pub(crate) fn value_of(&self, globals: &[usize], init: &[ConstInstr]) -> u64
        ensures { result ≡ init_value self.now globals.now init.now }
    {
        match init.first() {
            None => 0,
            Some(instr) => self.value_of_one(globals, *instr),
        }
    }

    /// The value of a constant instruction. It is 0 where there is no such global, as in no valid module.
    fn value_of_one(&self, globals: &[usize], instr: ConstInstr) -> u64
        ensures { result ≡ const_value self.now globals.now instr }
    {
        match instr {
            ConstInstr::I32Const(value) => u64::from(value.cast_unsigned()),
            ConstInstr::I64Const(value) => value.cast_unsigned(),
            ConstInstr::GlobalGet(index) => match globals.get(index as usize) {
                None => 0,
                Some(address) => match self.globals.get(*address) {
                    None => 0,
                    Some(global) => global.value,
                },
            },
        }
    }
}
