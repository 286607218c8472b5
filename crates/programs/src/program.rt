//! A graph and a script, with what a run looks up of them.

ghost use Rattle.std.specs.Prelude.{◌≡◌, map};
ghost use Rattle.std.specs.List.{slice_get};
ghost use Rattle.std.specs.Option.{option_map};
ghost use Rattle.programs.specs.Program.{numbers_of, params_of, returned_of, value_of, host_values, resources_of};

use comp_graph::Graph;
use laid_types::{LaidTypes, NumberedType};
use script_reader::{Item, Script};
use syntax_trees::{Seq, Value};
use task_table::Callee;

/// The numbers of the types of what a function passes, among types.
#[derive(Clone, Copy)]
pub struct FuncNumbers {
    /// The number of the type of the arguments: the tuple type of the parameters' types, in order.
    pub params: usize,
    /// The number of the type of the result, if there is one.
    pub returned: Option<usize>,
}

/// A call of a script.
#[derive(Clone, Copy)]
pub struct CallNumbers {
    /// The number of its item, counted from 0.
    pub item: usize,
    /// The number of the export that it calls.
    pub export: usize,
}

/// A graph and a script, with what a run looks up of them by numbers.
#[derive(Drop)]
pub struct Program<'g, 'a> {
    /// What runs.
    pub graph: &'g Graph<'a>,
    /// What happens in the run.
    pub script: &'g Script,
    /// The types of values of the graph. Where values are lifted none stands twice among them.
    pub types: &'g LaidTypes,
    /// Of each export, in order.
    pub exports: Vec<FuncNumbers>,
    /// Of each canonical function that lowers a function, by its number.
    pub canons: Vec<Option<FuncNumbers>>,
    /// The number of the type of the result or of the elements of each canonical function that is a built-in and has one.
    pub values: Vec<Option<usize>>,
    /// The number of the type of the stream or the future of each canonical function that is a built-in of ends, in the order of the graph's.
    pub ends: &'g [Option<u32>],
    /// The calls of the script, in order.
    pub calls: Vec<CallNumbers>,
    /// The numbers of the resources that each component instance defines.
    pub resources: Vec<Seq<u32>>,
}

impl<'g, 'a> Program<'g, 'a> {
    /// The numbers of the types of what a task passes, where it runs a function that is called with values.
    fn numbers_of(&self, callee: Callee) -> Option<FuncNumbers>
        ensures { result ≡ numbers_of self.now callee }
    {
        match callee {
            Callee::Init => None,
            Callee::Export(number) => self.exports.get(number).copied(),
            Callee::Lowered(canon) => match self.canons.get(canon as usize) {
                Some(numbers) => *numbers,
                None => None,
            },
            Callee::Destroys(_) => None,
        }
    }

    /// The type of the arguments of a task, where it runs a function that is called with values.
    pub fn params_of(&self, callee: Callee) -> Option<NumberedType<'g>>
        ensures { result ≡ params_of self.now callee }
    {
        let types = self.types;
        match self.numbers_of(callee) {
            Some(numbers) => types.numbered(numbers.params),
            None => None,
        }
    }

    /// The number of the type of the result of a task, where it has one. A destructor has none.
    pub fn returned_of(&self, callee: Callee) -> Option<usize>
        ensures { result ≡ returned_of self.now callee }
    {
        match self.numbers_of(callee) {
            Some(numbers) => numbers.returned,
            None => None,
        }
    }

    /// The number of the type of the result or of the elements of a built-in, by the number of its canonical function.
    pub fn value_of(&self, canon: u32) -> Option<usize>
        ensures { result ≡ value_of self.now canon }
    {
        match self.values.get(canon as usize) {
            Some(number) => *number,
            None => None,
        }
    }

    /// The arguments of the script's call of a number, counted from 1.
    pub fn host_values(&self, call: u32) -> Option<&'g [Value]>
        ensures { option_map (λ values. values.now) result ≡ host_values self.now call }
    {
        if call == 0 {
            return None;
        }
        let numbers = self.calls.get(call as usize - 1)?;
        let script = self.script;
        match script.items().get(numbers.item)? {
            Item::Call(call) => Some(call.values.as_slice()),
            Item::Cancel(_) => None,
        }
    }

    /// The numbers of the resources that a component instance defines.
    pub fn resources_of(&self, instance: usize) -> Option<&[u32]>
        ensures { option_map (λ numbers. numbers.now) result ≡ resources_of self.now instance }
    {
        match self.resources.get(instance) {
            Some(numbers) => Some(numbers.as_slice()),
            None => None,
        }
    }
}
