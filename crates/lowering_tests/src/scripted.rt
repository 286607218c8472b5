//! A room of a script.

ghost use Rattle.std.specs.Prelude.{◌≤◌, ◌^◌, length};

use std::alloc::Global;
use std::fmt::Write;
use value_lower::{Room, RoomEnd};

/// What a realloc does: the memory grows by so many zeros, and then there is an answer.
#[derive(Clone, Copy)]
pub(crate) struct Reply {
    pub(crate) growth: u32,
    pub(crate) answer: Result<u32, RoomEnd<u32>>,
}

/// A memory whose reallocs do what a script says, and which writes down what they are asked for. A trap is a number.
#[derive(Drop)]
pub(crate) struct ScriptedRoom {
    memory: Vec<u8>,
    replies: Vec<Reply>,
    asked: String,
    ghost small: { length memory.items ≤ 2 ^ 32 },
}

/// Adds what a realloc is asked for to a text.
fn write_ask(asked: &mut String, numbers: [u32; 4]) -> Result<(), RoomEnd<u32>> {
    let [old, old_size, align, size] = numbers;
    if write!(asked, " ({old}, {old_size}, {align}, {size})").is_err() {
        return Err(RoomEnd::Memory);
    }
    Ok(())
}

impl ScriptedRoom {
    /// A room with this memory. The replies are taken from the last one on.
    pub(crate) fn new(alloc: Global, memory: Vec<u8>, replies: Vec<Reply>) -> Option<ScriptedRoom> {
        if memory.len() > 4_294_967_296 {
            return None;
        }
        Some(ScriptedRoom {
            memory,
            replies,
            asked: String::new(alloc),
        })
    }

    /// The memory.
    pub(crate) fn memory(&self) -> &[u8] {
        &self.memory
    }

    /// What was asked for, with a space before each.
    pub(crate) fn asked(&self) -> &str {
        self.asked.as_str()
    }

    /// Adds zeros to the memory.
    fn grow(&mut self, growth: u32) -> Result<(), RoomEnd<u32>>
        ensures { length self.old.memory.items ≤ length self.new.memory.items }
    {
        let size = self.memory.len().saturating_add(growth as usize);
        if size > 4_294_967_296 || self.memory.resize(size, 0).is_err() {
            return Err(RoomEnd::Memory);
        }
        Ok(())
    }
}

impl Room for ScriptedRoom {
    type Trap = u32;

    ghost memory = { λ room. room.memory.items };

    ghost answers = { λ room ask answer after. Unit {0} };

    ghost wrote = { λ room place bytes after. Unit {0} };

    fn size(&self) -> u64 {
        self.memory.len() as u64
    }

    fn put(&mut self, place: u32, bytes: &[u8]) {
        let place = place as usize;
        self.memory[place..place + bytes.len()].copy_from_slice(bytes);
    }

    fn realloc(
        &mut self,
        _alloc: Global,
        old: u32,
        old_size: u32,
        align: u32,
        size: u32,
    ) -> Result<u32, RoomEnd<u32>> {
        let Some(reply) = self.replies.pop() else {
            return Err(RoomEnd::Memory);
        };
        write_ask(&mut self.asked, [old, old_size, align, size])?;
        self.grow(reply.growth)?;
        reply.answer
    }
}
