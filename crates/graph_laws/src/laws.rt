//! What holds of every linked graph, and of the modules that are read.

ghost use Rattle.lowering_laws.specs.Values.{AreBytes};
ghost use Rattle.graph_laws.specs.Laws.{PlansMakeInOrder, ReadModulesAreTyped, ReadDataAreBytes, ReadModulesAreSound, ReadTypesAreLabelled, ReadScriptsPassInRange};

use script_reader::scripts_are_texts;

/// The plan of every linked graph makes its core instances, each once, in order.
pub fn plans_make_in_order()
    ensures { PlansMakeInOrder }
{}

/// The modules that stand in a component that is read are typed, and no memory of theirs begins with more pages than any may have.
pub fn read_modules_are_typed()
    ensures { ReadModulesAreTyped }
{}

/// The data of modules that stand in a component that is read of bytes are bytes.
pub fn read_data_are_bytes()
    ensures { ReadDataAreBytes }
{}

/// The modules that stand in a component that is read of bytes are typed, in range and of bytes.
pub fn read_modules_are_sound()
    ensures { ReadModulesAreSound }
{}

/// A file of the program is one of bytes, as the laws of what is read of it ask.
pub fn files_are_bytes(file: &[u8])
    ensures { AreBytes file.now }
{}

/// The types of what functions of a component pass that is read of bytes and linked have counted labels, also in what passes in streams
/// and futures: flags at most 32, and a variant and an enum fewer than 2^32.
pub fn read_types_are_labelled()
    ensures { ReadTypesAreLabelled }
{}

/// Each call of a script that is read for exports whose types have counted labels passes values in their ranges: numbers within their
/// widths, Unicode scalar values, texts that are UTF-8, flags of 32 bits, and cases with numbers below 2^32.
pub fn read_scripts_pass_in_range()
    ensures { ReadScriptsPassInRange }
{
    scripts_are_texts();
}
