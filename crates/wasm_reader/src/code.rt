//! The readers of the code section (Core 2.0, section 5.5.13).

ghost use Rattle.ca_base.specs.Grammar.{MayRead};
ghost use Rattle.wasm_reader.specs.Code.{func_code};

use crate::declared::DeclaredFunc;
use crate::parted::Parted;
use ca_base::{KindOf, ReadError, Refusal, Window, read_each};
use std::alloc::Global;
use syntax_trees::{Func, Seq};
use wasm_code_reader::{ModuleWhy, PlacedBody, read_all_locals, read_body};
use wasm_typing::FuncPlaces;

/// Reads what the size of a function's code tells the length of: its locals and its body.
#[tactic(auto, unfolding(crate::specs::Code::func_code))]
fn read_func_code(
    alloc: Global,
    declared: DeclaredFunc,
    window: &mut Window<ModuleWhy>,
) -> Result<Parted<Func, FuncPlaces>, ReadError<ModuleWhy>>
    ensures { MayRead (λ read. read) (func_code declared) window.old window.new result }
{
    let locals = read_all_locals(alloc, window)?;
    let PlacedBody { body, ops } = read_body(alloc, window)?;
    Ok(Parted {
        part: Func {
            type_index: declared.type_index,
            locals,
            body,
        },
        places: FuncPlaces {
            place: declared.place,
            ops,
        },
    })
}

// The code of a function that is declared so.
impl KindOf for DeclaredFunc {
    ghost use Rattle.wasm_reader.specs.Code.{code};

    type Why = ModuleWhy;

    type Item = Parted<Func, FuncPlaces>;

    ghost grammar = { code };

    #[tactic(auto, unfolding(crate::specs::Code::code))]
    fn read(
        &self,
        alloc: Global,
        window: &mut Window<ModuleWhy>,
    ) -> Result<Parted<Func, FuncPlaces>, ReadError<ModuleWhy>> {
        let mut inner = window.open()?;
        let read = read_func_code(alloc, *self, &mut inner)?;
        inner.finish()?;
        Ok(read)
    }
}

/// Functions as their section declares them.
#[derive(Drop)]
pub(crate) struct Declared<'a> {
    pub funcs: &'a [DeclaredFunc],
}

// The payload of the code section: as many codes as functions.
impl<'a> KindOf for Declared<'a> {
    ghost use Rattle.wasm_reader.specs.Code.{code_payload};

    type Why = ModuleWhy;

    type Item = Seq<Parted<Func, FuncPlaces>>;

    ghost grammar = { λ d. code_payload d.funcs.now };

    #[tactic(auto, unfolding(crate::specs::Code::code_payload))]
    fn read(
        &self,
        alloc: Global,
        window: &mut Window<ModuleWhy>,
    ) -> Result<Seq<Parted<Func, FuncPlaces>>, ReadError<ModuleWhy>> {
        let place = window.at();
        let count = window.u32()?;
        if count as usize != self.funcs.len() {
            return Err(ReadError::Fault(Refusal {
                place,
                why: ModuleWhy::Count,
            }));
        }
        read_each(alloc, self.funcs, window)
    }
}
