//! Parts of files, call by call.

use crate::texts::{byte, split, write_read, write_refusal, write_value};
use crate::why::Why;
use ca_base::{Refusal, Window};
use cases::{Acts, Answers, acted, bytes_of_lines, check_lines};
use std::alloc::{AllocError, Global};
use std::fmt::Write;
use std::test::Fail;

/// A line a window: the place of its first byte and its bytes, then calls, with their bytes behind a colon, and what they
/// give, with a `;` behind each. What the end of the reading gives stands last. An `open` and a `sized` give the state of the
/// window inside of it, and behind `custom`, `byte` and `end` what a custom section, a byte and the end give there.
const WINDOWS: &str = "
0 | 07 08 09 | byte take:03 state next take:02 byte next | 7; 3 Past; at 1, 2 left; Some(8); [8, 9]; 3 Past; None; ();
10 | 07 08 09 | marker:07 take:03 state take:02 state at_end | 7; 13 Past; at 11, 2 left; [8, 9]; at 13, 0 left, empty; (); ();
10 | 07 08 09 | marker:08 byte fixed:0808 state | 10 Unsupported(7); 7; 12 Magic; at 11, 2 left; 11 Past;
10 | 07 08 09 | fixed:0708 at_end marker:09 marker:09 | (); 12 Unsupported(9); 9; 13 Past; ();
10 | 07 08 09 | state | at 10, 3 left; 10 Past;
10 | 03 01 61 07 09 | open next open | at 11, 3 left; custom (); byte 14 Size; end (); Some(9); 15 Past; 14 Past;
10 | 07 08 09 | sized:02 sized:02 state | at 10, 2 left; custom 12 Magic; byte 7; end 11 Magic; 13 Past; at 12, 1 left; 12 Past;
10 | 03 01 08 | fixed:030107 state | 12 Magic; at 10, 3 left; 10 Past;
10 | 03 01 | fixed:030107 state | 12 Past; at 10, 2 left; 10 Past;
10 | 03 | marker:04 state | 10 Unsupported(3); at 10, 1 left; 10 Past;
10 | - | marker:04 state | 10 Past; at 10, 0 left, empty; ();
10 | 01 80 | custom state | 11 Utf8; at 10, 2 left; 10 Past;
10 | 80 80 | custom state | 12 Past; at 10, 2 left; 10 Past;
10 | 02 07 | open state | 12 Past; at 10, 2 left; 10 Past;
10 | 80 80 80 80 80 | open state | 14 Leb; at 10, 5 left; 10 Past;
10 | 09 | at_end state | 10 Unsupported(9); at 10, 1 left; 10 Past;
";

/// Writes where a window stands, and how many bytes it has left.
fn write_state(text: &mut String, window: &Window<Why>) -> Result<(), AllocError> {
    let at = window.at();
    let left = window.left();
    let empty = if window.is_empty() { ", empty" } else { "" };
    write!(text, "at {at}, {left} left{empty}")
}

/// Writes what a custom section, a byte and the end give in a window.
fn write_content(text: &mut String, mut inner: Window<Why>) -> Result<(), AllocError> {
    text.push_str("; custom ")?;
    write_read(text, inner.custom())?;
    text.push_str("; byte ")?;
    write_read(text, inner.byte())?;
    text.push_str("; end ")?;
    write_read(text, inner.finish())
}

/// Writes what a window inside of another one gives: its state, a custom section's content, a byte, and its end.
fn write_inner(text: &mut String, inner: Window<Why>) -> Result<(), AllocError> {
    write_state(text, &inner)?;
    write_content(text, inner)
}

/// Writes what opening a window gives.
fn write_opened(
    text: &mut String,
    opened: Result<Window<Why>, Refusal<Why>>,
) -> Result<(), AllocError> {
    match opened {
        Ok(inner) => write_inner(text, inner),
        Err(refusal) => write_refusal(text, refusal),
    }
}

/// Writes what a call without bytes gives.
fn write_plain(text: &mut String, window: &mut Window<Why>, name: &str) -> Result<(), AllocError> {
    match name {
        "byte" => write_read(text, window.byte()),
        "next" => write_value(text, window.next()),
        "custom" => write_read(text, window.custom()),
        "at_end" => write_read(text, window.at_end()),
        "open" => write_opened(text, window.open()),
        _ => write_state(text, window),
    }
}

/// Writes what a call gives. What passes the end of a `sized` window is refused for `Magic`.
fn write_call(
    text: &mut String,
    window: &mut Window<Why>,
    name: &str,
    bytes: &[u8],
) -> Result<(), AllocError> {
    let first = bytes.first().copied().unwrap_or(0);
    match name {
        "fixed" => write_read(text, window.fixed(bytes, Why::Magic)),
        "marker" => write_read(text, window.marker(first)),
        "take" => write_read(text, window.take(usize::from(first))),
        "sized" => write_opened(text, window.sized(usize::from(first), Why::Magic)),
        _ => write_plain(text, window, name),
    }
}

/// A window that calls read.
#[derive(Drop)]
struct Tried<'w, 'b> {
    window: &'w mut Window<'b, Why>,
}

impl<'w, 'b> Acts for Tried<'w, 'b> {
    fn act(
        &mut self,
        alloc: Global,
        name: &str,
        rest: &str,
        text: &mut String,
    ) -> Result<(), Fail> {
        let bytes = bytes_of_lines(alloc, rest)?;
        write_call(text, self.window, name, &bytes)?;
        text.push(';')?;
        Ok(())
    }
}

/// Writes what the end of the reading gives.
fn write_end(text: &mut String, window: Window<Why>) -> Result<(), AllocError> {
    text.push(' ')?;
    write_read(text, window.finish())?;
    text.push(';')
}

/// What calls on a window give, and its end.
fn called(alloc: Global, mut window: Window<Why>, calls: &str) -> Result<String, Fail> {
    let tried = Tried {
        window: &mut window,
    };
    let mut text = acted(alloc, tried, calls)?;
    write_end(&mut text, window)?;
    Ok(text)
}

/// New windows.
struct WindowCalls;

impl Answers for WindowCalls {
    fn answer(alloc: Global, given: &str) -> Result<String, Fail> {
        let (base, rest) = split(given, " | ");
        let (hex, calls) = split(rest, " | ");
        let bytes = bytes_of_lines(alloc, hex)?;
        let window = Window::of(&bytes, usize::from(byte(base)), Why::Past);
        called(alloc, window, calls)
    }
}

#[test]
fn windows_are_read(rt: HostRuntime) -> Result<(), Fail> {
    check_lines::<WindowCalls>(rt.alloc(), WINDOWS, " |", 16)
}
