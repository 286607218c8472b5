//! Modules of texts, and imports.

use cases::bytes_of;
use std::alloc::Global;
use std::test::Fail;
use syntax_trees::Seq;
use syntax_trees::module_types::{FuncType, ValType};
use wasm_code::External;

/// The preamble of a core module.
const PREAMBLE: &[u8] = &[0x00, 0x61, 0x73, 0x6d, 0x01, 0x00, 0x00, 0x00];

/// Puts bytes behind others, and before them how many they are, in two bytes of LEB128.
pub(crate) fn push_sized(bytes: &mut Vec<u8>, content: &[u8]) -> Result<(), Fail> {
    let size = content.len();
    bytes.push((size % 128) as u8 + 128)?;
    bytes.push((size / 128 % 128) as u8)?;
    bytes.extend_from_slice(content)?;
    Ok(())
}

/// Puts a section behind others, as its number, a colon and its bytes, without their size.
pub(crate) fn push_section(alloc: Global, bytes: &mut Vec<u8>, text: &str) -> Result<(), Fail> {
    let (id, content) = text.split_once(':').ok_or("no section")?;
    let id = bytes_of(alloc, id)?;
    let content = bytes_of(alloc, content)?;
    bytes.extend_from_slice(&id)?;
    push_sized(bytes, &content)
}

/// The preamble, and these sections.
pub(crate) fn sections_of(alloc: Global, text: &str) -> Result<Vec<u8>, Fail> {
    let mut bytes = Vec::from_slice(alloc, PREAMBLE)?;
    for section in text.split(';') {
        push_section(alloc, &mut bytes, section)?;
    }
    Ok(bytes)
}

/// The type of a letter.
fn type_of(letter: u8) -> ValType {
    if letter == b'l' {
        ValType::I64
    } else {
        ValType::I32
    }
}

/// The types of letters.
fn types_of(alloc: Global, letters: &str) -> Result<Seq<ValType>, Fail> {
    let mut types = Vec::new(alloc);
    for letter in letters.bytes() {
        types.push(type_of(letter))?;
    }
    Ok(Seq::from_vec(types))
}

/// The type of a function, its parameters and results as letters: `i` for i32 and `l` for i64.
pub(crate) fn func_type(alloc: Global, text: &str) -> Result<FuncType, Fail> {
    let (params, results) = text.split_once('>').ok_or("no type")?;
    Ok(FuncType {
        params: types_of(alloc, params)?,
        results: types_of(alloc, results)?,
    })
}

/// What an import brings: a letter for its sort, and its address.
fn import_of(text: &str) -> Result<External, Fail> {
    let (sort, address) = text.split_at_checked(1).ok_or("no import")?;
    let address: usize = address.parse()?;
    match sort {
        "f" => Ok(External::Func(address)),
        "t" => Ok(External::Table(address)),
        "m" => Ok(External::Memory(address)),
        "g" => Ok(External::Global(address)),
        _ => Err(Fail::new("no such import")),
    }
}

/// What imports bring.
pub(crate) fn imports_of(alloc: Global, text: &str) -> Result<Vec<External>, Fail> {
    let mut imports = Vec::new(alloc);
    for word in text.trim_matches('-').split_whitespace() {
        imports.push(import_of(word)?)?;
    }
    Ok(imports)
}
