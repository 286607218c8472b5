//! A world that lines change, with what is asked of the machine there.

use crate::calling::call;
use crate::returning::checked;
use crate::saying::{Said, front};
use crate::setting::{give_picks, start};
use ca_base::Fuel;
use copy_replies::{Moving, complete, moving_of};
use graph_cases::NamedGraph;
use graph_views::canon_at;
use replies::{begin, return_value};
use std::alloc::{AllocError, Global};
use syntax_trees::{Seq, Value};
use trace_labels::{Copied, TypedValue, TypedValues};
use world_parts::{Copying, Flow, Part, Parts, Stop};

/// A world that lines change.
pub(crate) struct Played {
    /// The graph.
    pub named: NamedGraph,
    /// The world.
    pub parts: Parts,
    /// The task of the last call that met an offer, and what is to go over.
    pub copying: Option<(u32, Copying)>,
}

/// Values of these bytes.
fn byte_values(alloc: Global, bytes: &[u32]) -> Result<Seq<Value>, AllocError> {
    let mut values = Seq::new(alloc);
    for byte in bytes {
        values.push(Value::U8((*byte % 256) as u8))?;
    }
    Ok(values)
}

/// Elements that went over: these bytes, or so many that hold nothing.
fn copied(
    alloc: Global,
    named: &NamedGraph,
    count: u32,
    bytes: &[u32],
) -> Result<Copied, AllocError> {
    if bytes.is_empty() {
        return Ok(Copied::Units(count));
    }
    let Some(val_type) = named.graph.types().types.value(Some(named.numbers.byte)) else {
        return Err(AllocError);
    };
    let val_type = val_type.share()?;
    let values = byte_values(alloc, bytes)?;
    Ok(Copied::Values(TypedValues { values, val_type }))
}

/// The result of a task: the number behind that of the task, as a u32, or none.
fn result_of(named: &NamedGraph, numbers: &[u32]) -> Result<Option<TypedValue>, AllocError> {
    let Some(number) = numbers.get(1) else {
        return Ok(None);
    };
    let Some(val_type) = named.graph.types().types.value(Some(named.numbers.word)) else {
        return Err(AllocError);
    };
    let value = Value::U32(*number);
    let val_type = val_type.share()?;
    Ok(Some(TypedValue { value, val_type }))
}

impl Played {
    /// A canonical function is called by a task.
    pub(crate) fn call(
        &mut self,
        alloc: Global,
        task: u32,
        number: u32,
        words: &[u64],
    ) -> Part<Flow> {
        let graph = &self.named.graph;
        let came = call(alloc, graph, &mut self.parts, task, number, words);
        if let Ok(Flow::Copies(copying)) = &came {
            self.copying = Some((task, *copying));
        }
        came
    }

    /// The line of a call.
    pub(crate) fn begin(
        &mut self,
        alloc: Global,
        task: u32,
        number: u32,
        words: &[u64],
    ) -> Part<()> {
        match canon_at(&self.named.graph, number) {
            Some(canon) => begin(alloc, &mut self.parts, task, canon, words),
            None => Err(Stop::Stuck),
        }
    }

    /// What `task.return` tests of a task: the types of the result and of the function, and the memory of the core instance of a number.
    pub(crate) fn check(&self, said: Said<'_>) -> Part<()> {
        let (given, rest) = said.second();
        let (wanted, _) = front(rest);
        let (task, memory) = (said.nth(0), said.nth(1));
        checked(&self.named, &self.parts, task, given, wanted, memory)
    }

    /// What goes over for the last call.
    pub(crate) fn moving(&self) -> Part<Moving> {
        let Some((task, copying)) = self.copying else {
            return Err(Stop::Stuck);
        };
        moving_of(&self.named.graph, &self.parts, task, copying)
    }

    /// The last call is completed, with these elements.
    pub(crate) fn complete(&mut self, alloc: Global, bytes: &[u32]) -> Part<Flow> {
        let moving = self.moving()?;
        let Ok(copied) = copied(alloc, &self.named, moving.count, bytes) else {
            return Err(Stop::Memory);
        };
        complete(alloc, &mut self.parts, moving, copied)
    }

    /// A task resolves with a result.
    pub(crate) fn resolve(&mut self, said: Said<'_>) -> Part<()> {
        let Ok(result) = result_of(&self.named, said.numbers) else {
            return Err(Stop::Memory);
        };
        return_value(&mut self.parts, said.nth(0), result)
    }

    /// A call of the script whose task enters or waits to, without lines.
    pub(crate) fn start(&mut self, alloc: Global, said: Said<'_>) -> Part<u32> {
        let (kind, _) = said.second();
        let started = start(alloc, &mut self.parts, kind, said.at(0));
        self.parts.feed.labels = Seq::new(alloc);
        started
    }

    /// Gives what a script does: picks, or fuel.
    pub(crate) fn give(&mut self, said: Said<'_>) -> Result<(), AllocError> {
        if said.name == "picks" {
            return give_picks(&mut self.parts, said.numbers);
        }
        self.parts.feed.left = Fuel::new(u64::from(said.nth(0)));
        Ok(())
    }
}
