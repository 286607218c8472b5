//! Values that are lowered beside a table, by code whose calls are answered.

use crate::given::given;
use crate::lowering::write_words;
use crate::scene::Scene;
use copy_engine::{Lowered, Lowering, Target, lower, lower_list};
use laid_types::NumberedType;
use std::alloc::Global;
use std::fmt::Write;
use std::test::Fail;
use table_texts::{are_all_of, is_of, number};
use type_texts::{value_of, values_of};
use wasm_store::Store;

/// Where a value goes: into core values, to a new place, or to a place.
fn target_of(how: &str) -> Result<Target, Fail> {
    match how {
        "flat" => Ok(Target::Flat),
        "placed" => Ok(Target::NewPlace),
        place => Ok(Target::Place(number(place)?)),
    }
}

/// What a lowering comes to, as text.
fn write_came(came: &Lowered, text: &mut String) -> Result<(), Fail> {
    match came {
        Lowered::Words(words) if words.is_empty() => Ok(text.push_str("done")?),
        Lowered::Words(words) => write_words(words.as_slice(), text),
        Lowered::Failed(why) => Ok(write!(text, "Failed {why:?}")?),
        Lowered::Trapped(why) => Ok(write!(text, "Trapped {why:?}")?),
        Lowered::NoFuel => Ok(text.push_str("NoFuel")?),
    }
}

/// Lowers the value of words.
fn one_lowered(
    alloc: Global,
    store: &mut Store,
    scene: &mut Scene,
    to: &Lowering<'_>,
    words: &str,
    t: &NumberedType<'_>,
    target: Target,
) -> Result<Lowered, Fail> {
    let value = value_of(alloc, words)?;
    let laid = t.laid();
    if !is_of(&value, t) || laid.flat().len() > 16 {
        return Err(Fail::new("misfit"));
    }
    let fuel = &mut scene.fuel;
    let into = &mut scene.into;
    let acts = &mut scene.acts;
    match lower(alloc, store, fuel, into, acts, to, &value, t, target) {
        Ok(came) => Ok(came),
        Err(_) => Err(Fail::new("memory")),
    }
}

/// Lowers the values of words, one after the other from a place on.
fn all_lowered(
    alloc: Global,
    store: &mut Store,
    scene: &mut Scene,
    to: &Lowering<'_>,
    words: &str,
    t: &NumberedType<'_>,
    place: u32,
) -> Result<Lowered, Fail> {
    let values = values_of(alloc, words)?;
    if !are_all_of(&values, t) {
        return Err(Fail::new("misfit"));
    }
    let fuel = &mut scene.fuel;
    let into = &mut scene.into;
    let acts = &mut scene.acts;
    match lower_list(alloc, store, fuel, into, acts, to, &values, t, place) {
        Ok(came) => Ok(came),
        Err(_) => Err(Fail::new("memory")),
    }
}

/// Lowers what a line says, and writes what comes of it.
pub(crate) fn write_hosted(
    alloc: Global,
    store: &mut Store,
    scene: &mut Scene,
    to: &Lowering<'_>,
    t: &NumberedType<'_>,
    line: &str,
    text: &mut String,
) -> Result<(), Fail> {
    let how = given(line, "lower", "flat");
    let words = given(line, "value", "");
    let came = match how.strip_prefix("all ") {
        Some(place) => all_lowered(alloc, store, scene, to, words, t, number(place)?)?,
        None => one_lowered(alloc, store, scene, to, words, t, target_of(how)?)?,
    };
    write_came(&came, text)
}
