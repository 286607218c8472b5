//! Fixed modules in which bodies of functions stand.

/// A module of 110 bytes, whose code section is missing. Its types are from nothing to nothing, from i32 to i32, from i32
/// and i64 to i64 and i32, from nothing to i32, from two i32 to i32, from i64 to i32, and from i32 to i32 and i64. Function 0
/// is imported and of type 2, function 1 has the body and is of type 0. There is a table, a memory, and three globals: an
/// imported constant of i32, an i32 and an i64.
const FULL: &str = "0061736d01000000
    01250760000060017f017f60027f7e027e7f6000017f60027f7f017f60017e017f60017f027f7e
    020e02016d01660002016d0167037f00
    03020100
    040401700001
    0503010001
    060b027f0141000b7e0142000b
    0711010d787878787878787878787878780000";

/// The same with a function of type 2.
const GIVING: &str = "0061736d01000000
    01250760000060017f017f60027f7e027e7f6000017f60027f7f017f60017e017f60017f027f7e
    020e02016d01660002016d0167037f00
    03020102
    040401700001
    0503010001
    060b027f0141000b7e0142000b
    0711010d787878787878787878787878780000";

/// A module of 80 bytes with the same types, and else only the function that has the body, of type 0, and its export.
const BARE: &str = "0061736d01000000
    01250760000060017f017f60027f7e027e7f6000017f60027f7f017f60017e017f60017f027f7e
    03020100
    071b011778787878787878787878787878787878787878787878780000";

/// The frame of a name.
pub(crate) fn frame_of(name: &str) -> Option<&'static str> {
    match name {
        "full" => Some(FULL),
        "giving" => Some(GIVING),
        "bare" => Some(BARE),
        _ => None,
    }
}
