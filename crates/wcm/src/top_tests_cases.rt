//! Cases of the top call: of its words, of sources and sinks that fail, and of the order of its answers. What components and scripts
//! come to stands in the tables of `run_tests`.
//!
//! A case is some lines up to an empty one; a line that begins with `#` says what the next cases show. Each line says one thing, by
//! its first word:
//!
//! - `component NAME`: the component file is `TRAPPING` (`trapping`) or has no bytes (`none`); without this line it is `ADD`
//! - `front N`: its first bytes alone, so many; `change N B`: its byte at the place N is B; `zeros N`: so many zeros stand behind
//! - `script LINE`, `last LINE`: a line of the script, and its last one, which has no line feed
//! - `words WORDS`: the words, where they are not `wcm run add.wasm add.txt`
//! - `reads N`, `writes N`, `errors N`: this read, write to the output, write to the error output fails, counted from 1
//! - `most N`: the outputs take at most so many bytes at once
//! - `status STATUS`: how the call ends; with `Usage` the error output takes some text, which is not compared
//! - `out LINE`, `err LINE`: a line of the output, of the error output; `part TEXT`, `err-part TEXT`: one without line feed

/// The component whose one function adds two numbers.
pub const ADD: [u8; 100] = [
    0x00, 0x61, 0x73, 0x6d, 0x0d, 0x00, 0x01, 0x00, 0x01, 0x29, 0x00, 0x61, 0x73, 0x6d, 0x01, 0x00,
    0x00, 0x00, 0x01, 0x07, 0x01, 0x60, 0x02, 0x7f, 0x7f, 0x01, 0x7f, 0x03, 0x02, 0x01, 0x00, 0x07,
    0x07, 0x01, 0x03, 0x61, 0x64, 0x64, 0x00, 0x00, 0x0a, 0x09, 0x01, 0x07, 0x00, 0x20, 0x00, 0x20,
    0x01, 0x6a, 0x0b, 0x02, 0x04, 0x01, 0x00, 0x00, 0x00, 0x06, 0x09, 0x01, 0x00, 0x00, 0x01, 0x00,
    0x03, 0x61, 0x64, 0x64, 0x07, 0x0b, 0x01, 0x40, 0x02, 0x01, 0x61, 0x79, 0x01, 0x62, 0x79, 0x00,
    0x79, 0x08, 0x06, 0x01, 0x00, 0x00, 0x00, 0x00, 0x00, 0x0b, 0x09, 0x01, 0x00, 0x03, 0x61, 0x64,
    0x64, 0x01, 0x00, 0x00,
];

/// The component whose core module has a segment that does not fit behind one that does.
pub const TRAPPING: [u8; 47] = [
    0x00, 0x61, 0x73, 0x6d, 0x0d, 0x00, 0x01, 0x00, 0x01, 0x1f, 0x00, 0x61, 0x73, 0x6d, 0x01, 0x00,
    0x00, 0x00, 0x05, 0x03, 0x01, 0x00, 0x01, 0x0b, 0x10, 0x02, 0x00, 0x41, 0x00, 0x0b, 0x01, 0x41,
    0x00, 0x41, 0xff, 0xff, 0x03, 0x0b, 0x02, 0x42, 0x43, 0x02, 0x04, 0x01, 0x00, 0x00, 0x00,
];

/// How many lines of words are no command.
pub const WORDS_COUNT: u32 = 47;

/// Lines of words that are no command, which is told before any file is read.
pub const WORDS: &str = "\
wcm run add.wasm add.txt --dump --dump
wcm run --dump add.wasm add.txt --dump
wcm run add.wasm add.txt --dump=true
wcm run add.wasm add.txt --dump=
wcm run add.wasm add.txt --dump true
wcm run add.wasm add.txt --dum
wcm run add.wasm add.txt --dumps
wcm run add.wasm add.txt -dump
wcm run add.wasm add.txt -- --dump
wcm run add.wasm --dump
wcm run --dump
wcm --dump run add.wasm add.txt
wcm check add.wasm --dump
wcm show --dump add.wasm
wcm
wcm run
wcm run add.wasm
wcm run add.wasm add.txt more
wcm go add.wasm add.txt
wcm run add.wasm -x
wcm run -h add.txt
wcm check
wcm check add.wasm add.txt
wcm check --
wcm check --help
wcm show
wcm show add.wasm more
wcm show --all add.wasm
wcm --help
wcm --version
wcm help
wcm help run
wcm -- run add.wasm add.txt
add.wasm add.txt
wcm pipe
wcm pipe 1
wcm pipe 1 2 3
wcm pipe 1 1000001
wcm pipe 2147483648 1
wcm pipe one 1
wcm pipe 1 -- -1
wcm pipe -1 1
wcm pipe 1 2 --dump
wcm pipe --dump 1 2
wcm pipe 0x1 2
wcm pipe 1 2.0
wcm pipe add.wasm add.txt
";

/// How many cases there are.
pub const COUNT: u32 = 59;

/// The cases.
pub const CASES: &str = "
# a pipe reads no file; its first read of one would fail
reads 1
words wcm pipe 1 2
status Done
out seed 1
out elements 2
out sum 1480929165
out done

reads 1
words wcm pipe 1 0
status Done
out seed 1
out elements 0
out sum 0
out done

# a sign and leading zeros change nothing
reads 1
words wcm pipe +1 0002
status Done
out seed 1
out elements 2
out sum 1480929165
out done

reads 1
words wcm pipe 0 2
status Done
out seed 0
out elements 2
out sum 1406944951
out done

# the output takes no more behind its second write
most 5
writes 3
words wcm pipe 1 2
status WriteFault
out seed 1
part ele

# the option stands anywhere behind `run` but behind `--`, where it is a name
words wcm run --dump add.wasm add.txt
script call add (2, 3)
status Done
out take 1 T1 add (2, 3)
out enter T1
out return T1 (5)
out exit T1
out done
out instance I1

words wcm run add.wasm --dump add.txt
script call add (2, 3)
status Done
out take 1 T1 add (2, 3)
out enter T1
out return T1 (5)
out exit T1
out done
out instance I1

words wcm run --dump -- add.wasm add.txt
script call add (2, 3)
status Done
out take 1 T1 add (2, 3)
out enter T1
out return T1 (5)
out exit T1
out done
out instance I1

words wcm run add.wasm --dump -- add.txt
script call add (2, 3)
status Done
out take 1 T1 add (2, 3)
out enter T1
out return T1 (5)
out exit T1
out done
out instance I1

words wcm run add.wasm -- --dump
status ReadFault
err read fault

words wcm run -- --dump add.txt
status ReadFault
err read fault

# other words that are read: behind `--` each word is a name; a name may be empty, behind two spaces, or a minus
words wcm run -- add.wasm add.txt
script call add (2, 3)
status Done
out take 1 T1 add (2, 3)
out enter T1
out return T1 (5)
out exit T1
out done

words wcm run add.wasm -- add.txt
script call add (2, 3)
status Done
out take 1 T1 add (2, 3)
out enter T1
out return T1 (5)
out exit T1
out done

words wcm run add.wasm add.txt --
script call add (2, 3)
status Done
out take 1 T1 add (2, 3)
out enter T1
out return T1 (5)
out exit T1
out done

words wcm check -- add.wasm
status Done
out accepted

words wcm check -- -x
status ReadFault
err read fault

words wcm check -- --help
status ReadFault
err read fault

words wcm check -
status ReadFault
err read fault

words wcm run  add.txt
status ReadFault
err read fault

words  check add.wasm
status Done
out accepted

# words that are none: nothing of it goes to the output
words
reads 1
status Usage

words wcm
writes 1
status Usage

words wcm
errors 1
status WriteFault

words wcm check --help
errors 1
status WriteFault

# files that are not read
reads 1
script call add (2, 3)
status ReadFault
err read fault

reads 3
script call add (2, 3)
status ReadFault
err read fault

words wcm run missing.wasm add.txt
script call add (2, 3)
status ReadFault
err read fault

words wcm run add.wasm missing.txt
script call add (2, 3)
status ReadFault
err read fault

most 1
reads 1
script call add (2, 3)
status ReadFault
err read fault

most 3
reads 1
errors 2
script call add (2, 3)
status WriteFault
err-part rea

# a component that is refused comes before the script
front 99
words wcm run add.wasm missing.txt
status Refused
err refused at 99: Truncated

front 99
reads 3
status Refused
err refused at 99: Truncated

change 65 115
change 66 117
change 67 98
words wcm run add.wasm missing.txt
status LinkRefused
err link refused at 60: Missing(sub)

change 65 115
change 66 117
change 67 98
reads 3
status LinkRefused
err link refused at 60: Missing(sub)

front 99
last calls
status Refused
err refused at 99: Truncated

change 65 115
change 66 117
change 67 98
last calls
status LinkRefused
err link refused at 60: Missing(sub)

# behind one that is linked and has built-ins the script is read, too
front 89
change 83 5
change 84 5
change 85 5
change 86 5
change 87 5
change 88 5
words wcm run add.wasm missing.txt
status ReadFault
err read fault

front 89
change 83 5
change 84 5
change 85 5
change 86 5
change 87 5
change 88 5
reads 3
status ReadFault
err read fault

front 89
change 83 5
change 84 5
change 85 5
change 86 5
change 87 5
change 88 5
last calls
status ScriptRefused
err script refused at line 1: Form

front 89
change 83 5
change 84 5
change 85 5
change 86 5
change 87 5
change 88 5
status Done
out done

front 89
change 83 5
change 84 5
change 85 5
change 86 5
change 87 5
change 88 5
words wcm check add.wasm
reads 3
status Done
out accepted

# check and show read the component file alone
words wcm check add.wasm
reads 3
status Done
out accepted

words wcm check add.wasm
reads 1
status ReadFault
err read fault

words wcm check missing.wasm
status ReadFault
err read fault

words wcm check add.txt
last 0061736D
status Refused
err refused at 0: Magic

words wcm show add.wasm
reads 3
status Done
out instances 1
out func add (u32, u32) -> u32

words wcm show missing.wasm
status ReadFault
err read fault

# ends of runs: by want of fuel, and in a trap
script fuel 3
script call add (2, 3)
status Fuel
out take 1 T1 add (2, 3)
out enter T1
out fuel

component trapping
words wcm run add.wasm add.txt --dump
status Trap
out trap T0 SegmentBounds
out instance I1
out memory M1 1
out 00000000 4100000000000000000000000000000000000000000000000000000000000000

# outputs that take a few bytes at once, or no more
most 1
script call add (2, 3)
status Done
out take 1 T1 add (2, 3)
out enter T1
out return T1 (5)
out exit T1
out done

most 3
writes 2
script call add (2, 3)
status WriteFault
part tak

most 3
writes 1
script call add (2, 3)
status WriteFault

most 1
writes 5
script call add (2, 3)
status WriteFault
part take

most 1
script calls
status ScriptRefused
err script refused at line 1: Form

most 4
errors 3
script calls
status WriteFault
err-part script r

words wcm run add.wasm add.txt --dump
script call add (2, 3)
most 64
writes 2
status WriteFault
out take 1 T1 add (2, 3)
out enter T1
out return T1 (5)
out exit T1
out done

most 1
words wcm check add.wasm
status Done
out accepted

most 3
writes 3
words wcm check add.wasm
status WriteFault
part accept

most 5
writes 4
words wcm show add.wasm
status WriteFault
out instances 1
part fun

";
