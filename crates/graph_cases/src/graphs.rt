//! The graph of the cases: three component instances, each of which makes all canonical functions that are named here.
//!
//! Functions of no parameter and no result are exported of each instance: one that is lifted without `async`, one with a callback, one
//! that is stackful, and one that is so and uses no memory. Resource 1 is one of the first instance with a destructor, 2 one without, and 3 and 4 are so of the second instance.

ghost use Rattle.std.specs.Prelude.{◌≡◌, Some, IfOk};
ghost use Rattle.std.specs.List.{slice_get};
ghost use Rattle.comp_graph.specs.Passed.{HasCanonType};

use crate::canons::{Canon, canon_named, core_func, lift_named};
use crate::tabling::{Numbers, number_all};
use comp_graph::{CanonFunc, FuncTypes, Graph, GraphTypes, Lift, Resource};
use link_types::Types;
use std::alloc::Global;
use std::marker::Model;
use std::test::Fail;
use syntax_trees::{Export, Name, Seq};

/// The canonical functions but for those of ends.
const NAMES: &str =
    "task.cancel task.return task.return/u32 yield yield/c context.get/0 context.get/1 context.set/0 context.set/1
backpressure.set backpressure.inc backpressure.dec subtask.cancel subtask.cancel/async subtask.drop
waitable-set.new waitable-set.drop waitable.join waitable-set.wait waitable-set.wait/c waitable-set.poll waitable-set.poll/c
resource.new/1 resource.new/3 resource.rep/1 resource.rep/3 resource.drop/1 resource.drop/2 resource.drop/3 resource.drop/4
lower/1/sync lower/2/sync lower/2/sync-async lower/2/callback lower/2/callback-async lower/2/stackful lower/2/stackful-async
lower/3/sync lower/3/sync-async";

/// What is done with ends, with a star for the type of their elements.
const ENDS: &str =
    "new/* read/* read/*/async write/* write/*/async cancel-read/* cancel-read/*/async cancel-write/* cancel-write/*/async
drop-readable/* drop-writable/*";

/// The types of elements.
const ELEMENTS: &str = "units u8 u32 string";

/// How functions are lifted.
const LIFTED: &str = "sync callback stackful bare";

/// How many component instances there are.
const INSTANCES: u32 = 3;

/// Adds the names of the canonical functions of ends of a kind to others.
fn add_ends(alloc: Global, names: &mut Vec<String>, kind: &str) -> Result<(), Fail> {
    for element in ELEMENTS.split_whitespace() {
        for end in ENDS.split_whitespace() {
            let (op, how) = end.split_once('*').ok_or("no star")?;
            names.push(format!(in alloc; "{kind}.{op}{element}{how}")?)?;
        }
    }
    Ok(())
}

/// The names of all canonical functions of an instance.
fn all_names(alloc: Global) -> Result<Vec<String>, Fail> {
    let mut names = Vec::new(alloc);
    for name in NAMES.split_whitespace() {
        names.push(String::from_str(alloc, name)?)?;
    }
    add_ends(alloc, &mut names, "stream")?;
    add_ends(alloc, &mut names, "future")?;
    Ok(names)
}

/// A graph that is being made.
#[derive(Drop)]
struct Linking {
    types: FuncTypes,
    canon_numbers: Vec<Option<u32>>,
    canons: Vec<CanonFunc>,
    export_numbers: Vec<u32>,
    exports: Vec<Export>,
    lifts: Vec<Lift>,
}

impl Model for Linking {
    ghost use Rattle.std.specs.Coded.{codes};
    ghost use Rattle.syntax_trees.specs.contracts.types.ValType as val_type;
    ghost use Rattle.syntax_trees.specs.contracts.types.FuncType as func_type;
    ghost use Rattle.syntax_trees.specs.contracts.exports.Export as export;
    ghost use Rattle.comp_graph.specs.contracts.graph.CanonFunc as canon_func;
    ghost use Rattle.comp_graph.specs.contracts.graph.Lift as lift;
    ghost use Rattle.graph_cases.specs.Making as making;

    ghost Value = { making.Making };

    ghost coded = { Prim.hlevel (codes, val_type.the_row.coded, func_type.the_row.coded, export.the_row.coded, canon_func.the_row.coded, lift.the_row.coded) };

    ghost view = { λ l. record { types = l.types; canon_numbers = l.canon_numbers.items; canons = l.canons.items; export_numbers = l.export_numbers.items; exports = l.exports.items; lifts = l.lifts.items } };

    ghost invariant = { λ l. making.IsTyped (record { types = l.types; canon_numbers = l.canon_numbers.items; canons = l.canons.items; export_numbers = l.export_numbers.items; exports = l.exports.items; lifts = l.lifts.items }) };
}

impl Linking {
    /// Nothing but types.
    #[tactic(auto, using(crate::proofs::Growing::nothing_typed))]
    fn new(alloc: Global, types: FuncTypes) -> Linking {
        Linking {
            types,
            canon_numbers: Vec::new(alloc),
            canons: Vec::new(alloc),
            export_numbers: Vec::new(alloc),
            exports: Vec::new(alloc),
            lifts: Vec::new(alloc),
        }
    }

    /// Adds a canonical function.
    #[tactic(auto, using(crate::proofs::Growing::canon_typed))]
    fn push_canon(&mut self, canon: Canon) -> Result<(), Fail>
        requires { HasCanonType self.old.types canon.number canon.func }
    {
        self.canon_numbers.reserve(1)?;
        self.canons.reserve(1)?;
        self.canon_numbers.push_reserved(canon.number);
        self.canons.push_reserved(canon.func);
        Ok(())
    }

    /// Adds the canonical function of a name that an instance makes.
    fn add_canon(
        &mut self,
        alloc: Global,
        numbers: &Numbers,
        instance: u32,
        name: &str,
    ) -> Result<(), Fail> {
        let canon = canon_named(alloc, &self.types, numbers, instance, name)?;
        self.push_canon(canon)
    }

    /// A function that can be called, of the first function type.
    fn export(&self, alloc: Global) -> Result<Export, Fail>
        ensures { IfOk result (λ export. slice_get self.now.types.funcs 0 ≡ Some export.func_type) }
    {
        if self.types.len() == 0 {
            return Err(Fail::new("no function type"));
        }
        let func_type = self.types.func(0).func_type.share()?;
        let name = Name::new(alloc, "run")?;
        Ok(Export { name, func_type })
    }

    /// Adds a function that can be called, of the first function type.
    fn push_export(&mut self, export: Export, lift: Lift) -> Result<(), Fail>
        requires { slice_get self.old.types.funcs 0 ≡ Some export.func_type }
    {
        self.export_numbers.reserve(1)?;
        self.exports.reserve(1)?;
        self.lifts.reserve(1)?;
        self.export_numbers.push_reserved(0);
        self.exports.push_reserved(export);
        self.lifts.push_reserved(lift);
        Ok(())
    }

    /// Adds a function that can be called.
    fn add_export(&mut self, alloc: Global, lift: Lift) -> Result<(), Fail> {
        let export = self.export(alloc)?;
        self.push_export(export, lift)
    }

    /// Adds what an instance makes.
    fn add_instance(
        &mut self,
        alloc: Global,
        numbers: &Numbers,
        instance: u32,
        names: &[String],
    ) -> Result<(), Fail> {
        for name in names {
            self.add_canon(alloc, numbers, instance, name.as_str())?;
        }
        for how in LIFTED.split_whitespace() {
            self.add_export(alloc, lift_named(instance, how))?;
        }
        Ok(())
    }

    /// Adds what all instances make, and answers the resources.
    fn add_all(
        &mut self,
        alloc: Global,
        numbers: &Numbers,
        names: &[String],
    ) -> Result<Seq<Resource>, Fail> {
        for instance in 0..INSTANCES {
            self.add_instance(alloc, numbers, instance, names)?;
        }
        resources(alloc)
    }

    /// The graph, with these resources.
    fn into_graph(self, alloc: Global, resources: Seq<Resource>) -> Graph<'static> {
        let types = GraphTypes {
            types: self.types,
            canons: Seq::from_vec(self.canon_numbers),
            exports: Seq::from_vec(self.export_numbers),
            ends: Seq::new(alloc),
        };
        Graph::new(
            Seq::new(alloc),
            INSTANCES,
            Vec::new(alloc),
            Seq::from_vec(self.canons),
            resources,
            Seq::from_vec(self.exports),
            Seq::from_vec(self.lifts),
            types,
        )
    }
}

/// A resource of an instance, with the destructor of its instance or without one.
fn resource(instance: u32, has_destructor: bool) -> Resource {
    let destructor = if has_destructor {
        Some(core_func(instance, 2))
    } else {
        None
    };
    Resource {
        instance,
        destructor,
    }
}

/// The resources.
fn resources(alloc: Global) -> Result<Seq<Resource>, Fail> {
    let resources = [
        resource(0, true),
        resource(0, false),
        resource(1, true),
        resource(1, false),
    ];
    Ok(Seq::from_vec(Vec::from_slice(alloc, &resources)?))
}

/// A graph with the names of the canonical functions of each instance.
#[derive(Drop)]
pub struct NamedGraph {
    /// The graph.
    pub graph: Graph<'static>,
    /// The names of the canonical functions of an instance. Behind those of the first instance are those of the second, and so on.
    pub names: Vec<String>,
    /// The numbers of types of values.
    pub numbers: Numbers,
}

/// The graph over a table of types.
fn graph_over(alloc: Global, types: FuncTypes, numbers: Numbers) -> Result<NamedGraph, Fail> {
    let names = all_names(alloc)?;
    let mut linking = Linking::new(alloc, types);
    match linking.add_all(alloc, &numbers, &names) {
        Ok(resources) => Ok(NamedGraph {
            graph: linking.into_graph(alloc, resources),
            names,
            numbers,
        }),
        Err(fail) => Err(fail),
    }
}

/// The graph of all cases.
pub fn graph(alloc: Global) -> Result<NamedGraph, Fail> {
    let mut types = Types::new(alloc);
    let numbers = number_all(alloc, &mut types)?;
    graph_over(alloc, types.into_func_types(), numbers)
}

/// Lets a graph go.
pub fn let_go(named: NamedGraph) {
    drop(named)
}

impl NamedGraph {
    /// The number of the canonical function of a name of an instance.
    pub fn canon(&self, instance: usize, name: &str) -> Option<u32> {
        for (place, known) in self.names.iter().enumerate() {
            if known.as_str() == name {
                let before = instance.saturating_mul(self.names.len());
                return u32::try_from(before.saturating_add(place)).ok();
            }
        }
        None
    }
}
