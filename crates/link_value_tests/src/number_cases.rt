//! The numbers of types.

use crate::putting::put_words;
use cases::{Answers, check_lines};
use link_values::ValueTypes;
use std::alloc::Global;
use std::fmt::Write;
use std::test::Fail;

/// A line the layers of types, written twice or alike: the number of each.
const NUMBERS: &str = "
u8; s8; u8; s8 = 0 1 0 1
u8; list :0; list :0; u8; list :0 = 0 1 1 0 1
u8; record a:0 b:0; record a:0 b:0 = 0 1 1
u8; record a:0 b:0; record b:0 a:0; record a:0; record b:0 a:0 = 0 1 2 3 2
u8; s8; record a:0 b:1; record a:1 b:0 = 0 1 2 3
u8; tuple :0 :0; record a:0 b:0; tuple :0 :0 = 0 1 2 1
u8; tuple :0; tuple :0 :0 = 0 1 2
enum a b; variant a b; flags a b; enum a b; variant a b; flags a b = 0 1 2 0 1 2
flags a b; flags b a; enum a b; enum b a; flags a b = 0 1 2 3 0
flags ab; flags a b; enum ab; enum a b = 0 1 2 3
u8; variant a b:0; variant a:0 b; variant a:0 b:0; variant a b:0 = 0 1 2 3 1
u8; option :0; variant none some:0; option :0 = 0 1 2 1
u8; result :0 _; result _ :0; result :0 :0; result; result :0 _ = 0 1 2 3 4 1
u8; list :0; option :0; stream :0; future :0; stream; future; stream :0 = 0 1 2 3 4 5 6 3
own 0; own 1; borrow 0; borrow 1; own 0; borrow 1 = 0 1 2 3 0 3
";

/// The numbers of layers.
struct Numbers;

impl Answers for Numbers {
    fn answer(alloc: Global, given: &str) -> Result<String, Fail> {
        let mut types = ValueTypes::new(alloc);
        let mut text = String::new(alloc);
        for words in given.split("; ") {
            let number = put_words(alloc, &mut types, words)?;
            write!(text, " {number}")?;
        }
        Ok(text)
    }
}

#[test]
fn equal_types_have_one_number(rt: HostRuntime) -> Result<(), Fail> {
    check_lines::<Numbers>(rt.alloc(), NUMBERS, " =", 15)
}
