//! The readings of the small format.

use crate::format::{Customs, Marked, Names, Numbers, Pairs};
use crate::texts::{split, write_error, write_item, write_list, write_read, write_section};
use crate::why::Why;
use ca_base::{
    Kind, KindOf, PlacedOf, ReadError, SizedOf, VecOf, Window, read_each, read_placed,
    read_section, read_sized, read_sized_of, read_times, read_times_of, read_to_the_end, read_vec,
    read_vec_of,
};
use cases::{Acts, Answers, acted, bytes_of_lines, check_lines};
use std::alloc::{AllocError, Global};
use std::fmt::{Debug, Write};
use std::test::Fail;
use syntax_trees::{Name, Seq};

/// A line a reading: the readers in order, the bytes, whose first stands at 100, and what the readers give, with a `;` behind
/// each.
const READINGS: &str = "
customs byte customs | 00 03 01 61 07 00 01 00 09 00 02 01 80 | 2; 9; 112 Utf8;
start start listed listed | 01 01 05 02 06 02 01 7F 80 01 03 | Some(5); None; [Placed { item: (1, -1), place: 106 }, Placed { item: (128, 3), place: 108 }]; none;
listed | 02 | 101 Past;
listed | 02 80 80 80 80 80 | 105 Leb;
listed | 02 04 01 05 06 | 105 Past;
listed | 02 02 01 05 06 | 104 Size;
listed | 02 04 01 05 06 09 | 105 Size;
listed | 02 03 02 05 06 | 105 Size;
listed | 02 05 FF FF FF FF 0F | 107 Size;
last | 05 06 07 40 | [(5, 6), (7, -64)];
last | 05 06 07 40 01 | 105 Past;
last | - | [];
names | 02 01 61 00 | [<a>, <>];
names | 01 01 80 | 102 Utf8;
names | FF FF FF FF 0F | 105 Past;
pairs | 02 05 06 07 08 | [(5, 6), (7, 8)];
pairs | 02 05 06 07 | 104 Past;
placed | 05 06 | Placed { item: (5, 6), place: 100 };
two byte | 05 06 07 08 09 | [(5, 6), (7, 8)]; 9;
sized byte | 02 05 06 09 | (5, 6); 9;
sized | 03 05 06 09 | 103 Size;
sized | 01 05 06 | 102 Size;
parts byte | 02 01 05 02 80 01 09 | [5, 128]; 9;
parts | 02 01 05 03 80 01 09 | 106 Size;
ones | 01 05 01 06 | [(1, 5), (1, 6)];
ones | 01 05 02 06 | 102 Unsupported(2);
some | 02 01 05 01 06 | [(1, 5), (1, 6)];
some | 02 01 05 | 103 Past;
each | 01 05 02 06 | [(1, 5), (2, 6)];
each | 01 05 01 06 | 102 Unsupported(1);
whole | 02 01 05 | (1, 5);
whole | 03 01 05 06 | 103 Size;
";

/// Passes over custom sections, and writes how many there are.
fn write_customs(
    alloc: Global,
    text: &mut String,
    window: &mut Window<Why>,
) -> Result<(), AllocError> {
    for count in 0..window.left() {
        match read_section::<Customs>(alloc, 0, window) {
            Ok(Some(())) => continue,
            Ok(None) => return write!(text, "{count}"),
            Err(error) => return write_error(text, error),
        }
    }
    text.push_str("all")
}

/// Writes names.
fn write_each(text: &mut String, names: &[Name]) -> Result<(), AllocError> {
    let mut between = "[";
    for name in names {
        let name = name.as_str();
        write!(text, "{between}<{name}>")?;
        between = ", ";
    }
    text.push(']')
}

/// Writes the names that are read.
fn write_names(
    text: &mut String,
    read: Result<Seq<Name>, ReadError<Why>>,
) -> Result<(), AllocError> {
    match read {
        Ok(names) => write_each(text, names.as_slice()),
        Err(error) => write_error(text, error),
    }
}

/// Writes what a reader of items of a kind gives.
fn write_kind<K: Kind>(
    alloc: Global,
    text: &mut String,
    window: &mut Window<K::Why>,
    reader: &str,
) -> Result<(), AllocError>
where
    K: Kind<Why = Why>,
    K::Item: Debug,
{
    match reader {
        "last" => write_list(text, read_to_the_end::<K>(alloc, window)),
        "pairs" => write_list(text, read_vec::<K>(alloc, window)),
        "placed" => write_item(text, read_placed::<K>(alloc, window)),
        "two" => write_list(text, read_times::<K>(alloc, 2, window)),
        _ => write_item(text, read_sized::<K>(alloc, window)),
    }
}

/// Writes what a reader of marked numbers gives.
fn write_marked(
    alloc: Global,
    text: &mut String,
    window: &mut Window<Why>,
    reader: &str,
) -> Result<(), AllocError> {
    let one = Marked { byte: 1 };
    match reader {
        "ones" => write_list(text, read_times_of(alloc, &one, 2, window)),
        "some" => write_list(text, read_vec_of(alloc, &one, window)),
        "whole" => write_item(text, read_sized_of(alloc, &one, window)),
        _ => write_list(text, read_each(alloc, &[one, Marked { byte: 2 }], window)),
    }
}

/// Writes what a reader of other items gives.
fn write_others(
    alloc: Global,
    text: &mut String,
    window: &mut Window<Why>,
    reader: &str,
) -> Result<(), AllocError> {
    match reader {
        "byte" => write_read(text, window.byte()),
        "start" => write_item(text, read_section::<Numbers>(alloc, 1, window)),
        "listed" => write_section(
            text,
            read_section::<VecOf<PlacedOf<Pairs>>>(alloc, 2, window),
        ),
        "parts" => write_list(text, read_vec::<SizedOf<Numbers>>(alloc, window)),
        _ => write_names(text, read_vec::<Names>(alloc, window)),
    }
}

/// Writes what the reader of this name gives.
fn write_read_by(
    alloc: Global,
    text: &mut String,
    window: &mut Window<Why>,
    reader: &str,
) -> Result<(), AllocError> {
    match reader {
        "customs" => write_customs(alloc, text, window),
        "ones" | "some" | "whole" | "each" => write_marked(alloc, text, window, reader),
        "last" | "pairs" | "placed" | "two" | "sized" => {
            write_kind::<Pairs>(alloc, text, window, reader)
        }
        _ => write_others(alloc, text, window, reader),
    }
}

/// Bytes that are read.
#[derive(Drop)]
struct Tried<'b> {
    window: Window<'b, Why>,
}

impl<'b> Acts for Tried<'b> {
    fn act(
        &mut self,
        alloc: Global,
        name: &str,
        _rest: &str,
        text: &mut String,
    ) -> Result<(), Fail> {
        write_read_by(alloc, text, &mut self.window, name)?;
        text.push(';')?;
        Ok(())
    }
}

/// What readers give.
struct Readers;

impl Answers for Readers {
    fn answer(alloc: Global, given: &str) -> Result<String, Fail> {
        let (readers, hex) = split(given, " | ");
        let bytes = bytes_of_lines(alloc, hex)?;
        let window = Window::of(&bytes, 100, Why::Past);
        acted(alloc, Tried { window }, readers)
    }
}

#[test]
fn formats_are_read(rt: HostRuntime) -> Result<(), Fail> {
    check_lines::<Readers>(rt.alloc(), READINGS, " |", 32)
}
