//! The module in which bodies stand.

use std::test::Fail;

/// Its parts, a line each: the types, the bodies of the functions behind the one that is tried, and sections, each as its
/// number, a colon and its bytes, without their size. All numbers are hexadecimal.
const PARTS: &str = "
types | 14 600000 60017f017f 60027f7e027e7f 6000017f 60027f7f017f 60017e017f 60017f027f7e 6000017e 60017e017e 60027e7e017e 6000027f7f 60027f7f027f7f 60027e7e017f 60027f7e00 60037f7f7f00 60017f017e 60017f00 60027f7f017e 60017f017f 60037f7f7f017f
bodies | 07 00 2000 4101 6a 0b 06 00 4107 4109 0b 04 00 1004 0b 03 00 00 0b 15 00 2000 45 047f 4101 05 2000 2000 4101 6b 1006 6c 0b 0b 09 00 4100 412a 3a0000 0b 06 00 2001 2000 0b
table | 04:01 70 00 0a
entries | 09:01 00 4101 0b 05 02 03 08 00 05
globals | 06:03 7f01 4105 0b 7e01 427e 0b 7f00 4107 0b
memory | 05:01 01 01 02
bytes | 0b:02 00 4110 0b 08 80ff7f01fedcba98 00 41fcff03 0b 04 01020384
memory without pages | 05:01 01 00 02
no bytes | 0b:00
";

/// The part of a name.
pub(crate) fn part(name: &str) -> Result<&'static str, Fail> {
    for line in PARTS.trim().lines() {
        let (title, text) = line.split_once(" | ").ok_or("no part")?;
        if title == name {
            return Ok(text);
        }
    }
    Err(Fail::new("no such part"))
}
