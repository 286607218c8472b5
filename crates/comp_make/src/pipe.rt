//! A pipe: a component in which numbers go from a producer to a consumer.

ghost use Rattle.std.specs.Prelude.{◌≡◌, ◌++◌, OnOk, IfOk};
ghost use Rattle.std.specs.Int.{w32, to_le_bytes};
ghost use Rattle.comp_make.specs.Pipe.{producer_module, memory_items, producer_modules, producer_insides, producer_offers, producer_tree, consumer_modules, producer_items, consumer_insides, consumer_offers, pipe_tree};

use crate::build::Build;
use crate::pipe_parts::{
    CONSUMER_ALIAS, CONSUMER_CANONS, CONSUMER_CODE, CONSUMER_EXPORT, CONSUMER_INSTANCES,
    CONSUMER_TYPES, LIFT, MEMORY_ALIAS, MEMORY_INSTANCE, MEMORY_MODULE, NUMBERS_ALIAS,
    PRODUCER_ALIAS, PRODUCER_CANONS, PRODUCER_CODE, PRODUCER_EXPORT, PRODUCER_INSTANCE,
    PRODUCER_INSTANCES, PRODUCER_TYPES,
};
use faults::Memory;
use std::alloc::Global;

/// Appends the two numbers, as the producer's memory holds them.
fn push_numbers(seed: u32, count: u32, to: &mut Vec<u8>) -> Result<(), Memory>
    ensures { OnOk result (to.new.items ≡ to.old.items ++ to_le_bytes w32 seed ++ to_le_bytes w32 count) }
{
    to.extend_from_slice(&seed.to_le_bytes())?;
    to.extend_from_slice(&count.to_le_bytes())?;
    Ok(())
}

/// The core module of the producer. Its one function makes a stream, returns the readable end, and writes the numbers to
/// the writable one: it fills up to seven of them, writes what stands there, and moves what was not taken to the front.
fn producer_module(alloc: Global, seed: u32, count: u32) -> Result<Vec<u8>, Memory>
    ensures { IfOk result (λ bytes. bytes.items ≡ producer_module seed count) }
{
    let mut bytes = Vec::new(alloc);
    bytes.extend_from_slice(&PRODUCER_CODE)?;
    push_numbers(seed, count, &mut bytes)?;
    Ok(bytes)
}

/// Adds the instance of the first core module, and its memory.
fn add_memory(alloc: Global, build: &mut Build) -> Result<(), Memory>
    ensures { OnOk result (build.new.items ≡ build.old.items ++ memory_items) }
{
    build.section(alloc, 2, &MEMORY_INSTANCE)?;
    build.section(alloc, 6, &MEMORY_ALIAS)
}

/// Adds the core modules of the producer.
fn add_producer_modules(
    alloc: Global,
    seed: u32,
    count: u32,
    build: &mut Build,
) -> Result<(), Memory>
    ensures { OnOk result (build.new.items ≡ build.old.items ++ producer_modules seed count) }
{
    let producer = producer_module(alloc, seed, count)?;
    build.section(alloc, 1, &MEMORY_MODULE)?;
    build.section(alloc, 1, producer.as_slice())
}

/// Adds the core instance of the producer, with what it is given.
fn add_producer_insides(alloc: Global, build: &mut Build) -> Result<(), Memory>
    ensures { OnOk result (build.new.items ≡ build.old.items ++ producer_insides) }
{
    build.section(alloc, 7, &PRODUCER_TYPES)?;
    build.section(alloc, 8, &PRODUCER_CANONS)?;
    build.section(alloc, 2, &PRODUCER_INSTANCES)
}

/// Adds the function that the producer offers.
fn add_producer_offers(alloc: Global, build: &mut Build) -> Result<(), Memory>
    ensures { OnOk result (build.new.items ≡ build.old.items ++ producer_offers) }
{
    build.section(alloc, 6, &PRODUCER_ALIAS)?;
    build.section(alloc, 8, &LIFT)?;
    build.section(alloc, 11, &PRODUCER_EXPORT)
}

/// The component of the producer.
#[tactic(auto, unfolding(crate::specs::Pipe::producer_tree))]
fn producer(alloc: Global, seed: u32, count: u32) -> Result<Build, Memory>
    ensures { IfOk result (λ build. build.items ≡ producer_tree seed count) }
{
    let mut build = Build::new(alloc);
    add_producer_modules(alloc, seed, count, &mut build)?;
    add_memory(alloc, &mut build)?;
    add_producer_insides(alloc, &mut build)?;
    add_producer_offers(alloc, &mut build)?;
    Ok(build)
}

/// Adds the core modules of the consumer. The one function of the second one calls the producer, reads at most five
/// elements a read from the stream that it gives until it is told of the drop, and drops the readable end.
fn add_consumer_modules(alloc: Global, build: &mut Build) -> Result<(), Memory>
    ensures { OnOk result (build.new.items ≡ build.old.items ++ consumer_modules) }
{
    build.section(alloc, 1, &MEMORY_MODULE)?;
    build.section(alloc, 1, &CONSUMER_CODE)
}

/// Adds the component of the producer, an instance of it, and the function that it offers.
fn add_producer(alloc: Global, seed: u32, count: u32, build: &mut Build) -> Result<(), Memory>
    ensures { OnOk result (build.new.items ≡ build.old.items ++ producer_items seed count) }
{
    let producer = producer(alloc, seed, count)?;
    build.component(alloc, &producer)?;
    build.section(alloc, 5, &PRODUCER_INSTANCE)?;
    build.section(alloc, 6, &NUMBERS_ALIAS)
}

/// Adds the core instance of the consumer, with what it is given.
fn add_consumer_insides(alloc: Global, build: &mut Build) -> Result<(), Memory>
    ensures { OnOk result (build.new.items ≡ build.old.items ++ consumer_insides) }
{
    build.section(alloc, 7, &CONSUMER_TYPES)?;
    build.section(alloc, 8, &CONSUMER_CANONS)?;
    build.section(alloc, 2, &CONSUMER_INSTANCES)
}

/// Adds the function that can be called.
fn add_consumer_offers(alloc: Global, build: &mut Build) -> Result<(), Memory>
    ensures { OnOk result (build.new.items ≡ build.old.items ++ consumer_offers) }
{
    build.section(alloc, 6, &CONSUMER_ALIAS)?;
    build.section(alloc, 8, &LIFT)?;
    build.section(alloc, 11, &CONSUMER_EXPORT)
}

/// The pipe of a seed and a count: a component in which a producer writes so many numbers to a stream, at most seven a
/// write, and a consumer in another instance reads them, at most five a read, until it is told of the drop. The first number is
/// `1103515245 * seed + 12345` modulo 2^31, and each other one follows likewise from the one before it. The consumer is the
/// root, and its export `run ()` runs all of it. It fails for want of memory alone.
#[tactic(auto, unfolding(crate::specs::Pipe::pipe_tree))]
pub fn pipeline(alloc: Global, seed: u32, count: u32) -> Result<Build, Memory>
    ensures { IfOk result (λ build. build.items ≡ pipe_tree seed count) }
{
    let mut build = Build::new(alloc);
    add_consumer_modules(alloc, &mut build)?;
    add_producer(alloc, seed, count, &mut build)?;
    add_memory(alloc, &mut build)?;
    add_consumer_insides(alloc, &mut build)?;
    add_consumer_offers(alloc, &mut build)?;
    Ok(build)
}
