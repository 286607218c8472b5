//! Examples of the definitions, worked out by hand.

ghost use Rattle.std.specs.Prelude.{◌≡◌, [], ◌∷◌, true, false, Some, None, Ok, Err};
ghost use Rattle.std.specs.Int.{w32, w64};
ghost use Rattle.syntax_trees.specs.declared.instr.BinaryOp.TheVariants.{DivS, RemS, RemU, Sub, Shl, ShrS, Rotl};
ghost use Rattle.syntax_trees.specs.declared.instr.UnaryOp.TheVariants.{Extend8S};
ghost use Rattle.syntax_trees.specs.declared.instr.RelationOp.TheVariants.{LtS, LtU};
ghost use Rattle.syntax_trees.specs.declared.instr.LoadOp.TheVariants.{I32Load, I32Load8S, I32Load16U, I64Load32S};
ghost use Rattle.syntax_trees.specs.declared.instr.StoreOp.TheVariants.{I64Store16};
ghost use Rattle.wasm_store.specs.declared.trap.Trap.TheVariants.{Unreachable, DivideByZero, DivideOverflow, MemoryBounds, TableBounds, NullElement, OtherSignature, StackLimit};
ghost use Rattle.wasm_numbers.specs.declared.trap.NumberTrap.TheVariants as number_trap;
ghost use Rattle.wasm_numbers.specs.Numeric.{binary, extended, unary, relation};
ghost use Rattle.wasm_memory.specs.Bytes.{is_inside, copied};
ghost use Rattle.wasm_memory.specs.Loads.{loaded};
ghost use Rattle.wasm_memory.specs.Stores.{stored_bytes};
ghost use Rattle.wasm_store.specs.Step.{Goes, Calls, Ends, Traps, cost, next, first_frame};
ghost use Rattle.machine_tests.specs.Examples.{sums, leaves, returns, calls, asks, grows, branches, goes_back, divides, keeps, writes, stops, selects, chooses, copies, fills, at_call, host_alone, store, outcome, answered, nested, four, segment, added, written, starts};
ghost use Rattle.wasm_store.specs.Stack.{Given, Running};
ghost use Rattle.syntax_trees.specs.Expr.{End};
ghost use Rattle.wasm_typing.specs.Context.{arrow};

/// Operations at the edges of their widths.
pub(crate) fn numbers()
    ensures overflow { binary w32 DivS 0x8000_0000 0xFFFF_FFFF ≡ Err number_trap.DivideOverflow }
    ensures no_overflow { binary w64 DivS 0x8000_0000 0xFFFF_FFFF ≡ Ok 0 }
    ensures least_rest { binary w32 RemS 0x8000_0000 0xFFFF_FFFF ≡ Ok 0 }
    ensures by_zero { binary w64 RemU 5 0 ≡ Err number_trap.DivideByZero }
    ensures toward_zero { binary w32 DivS 0xFFFF_FFF9 2 ≡ Ok 0xFFFF_FFFD }
    ensures rest_sign { binary w32 RemS 0xFFFF_FFF9 2 ≡ Ok 0xFFFF_FFFF }
    ensures wrapped { binary w32 Sub 0 1 ≡ Ok 0xFFFF_FFFF }
    ensures shift { binary w32 Shl 1 33 ≡ Ok 2 }
    ensures signed_shift { binary w32 ShrS 0x8000_0000 31 ≡ Ok 0xFFFF_FFFF }
    ensures rotation { binary w32 Rotl 0x8000_0001 33 ≡ Ok 3 }
    ensures byte_sign { unary w32 Extend8S 0x180 ≡ 0xFFFF_FF80 }
    ensures word_sign { extended w32 w64 0x8000_0000 ≡ 0xFFFF_FFFF_8000_0000 }
    ensures signed_less { relation w32 LtS 0xFFFF_FFFF 0 ≡ true }
    ensures less { relation w32 LtU 0xFFFF_FFFF 0 ≡ false }
{}

/// Bytes of a memory: numbers in them, what is inside, and a copy over itself.
pub(crate) fn memories()
    ensures whole { loaded I32Load 0 four ≡ Some 0x8403_0201 }
    ensures byte { loaded I32Load8S 3 four ≡ Some 0xFFFF_FF84 }
    ensures pair { loaded I32Load16U 2 four ≡ Some 0x8403 }
    ensures sign { loaded I64Load32S 0 four ≡ Some 0xFFFF_FFFF_8403_0201 }
    ensures low { stored_bytes I64Store16 0x1_2345 ≡ 0x45 ∷ 0x23 ∷ [] }
    ensures end { is_inside 4 0 four ≡ true }
    ensures past_end { is_inside 5 0 four ≡ false }
    ensures far { is_inside 0x1_0000_0000 1 four ≡ false }
    ensures over_itself { copied 1 0 3 four ≡ 1 ∷ 1 ∷ 2 ∷ 3 ∷ [] }
{}

/// Runs: what they come to, and the units that they took.
pub(crate) fn runs()
    ensures sum { outcome sums 0 (3 ∷ []) ≡ (29, Ends (6 ∷ [])) }
    ensures out_of_a_block { outcome leaves 1 [] ≡ (6, Ends (9 ∷ [])) }
    ensures returned { outcome returns 2 (1 ∷ []) ≡ (4, Ends (1 ∷ [])) }
    ensures not_returned { outcome returns 2 (0 ∷ []) ≡ (3, Ends (2 ∷ [])) }
    ensures through_a_table { outcome calls 3 (0 ∷ []) ≡ (41, Ends (10 ∷ [])) }
    ensures no_entry { outcome calls 3 (3 ∷ []) ≡ (2, Traps TableBounds) }
    ensures no_function { outcome calls 3 (1 ∷ []) ≡ (2, Traps NullElement) }
    ensures other_type { outcome calls 3 (2 ∷ []) ≡ (2, Traps OtherSignature) }
    ensures answer { answered (8 ∷ []) (outcome asks 5 []).1 ≡ (1, Ends (13 ∷ [])) }
    ensures too_many_pages { outcome grows 7 (4 ∷ []) ≡ (2, Ends (0xFFFF_FFFF ∷ [])) }
    ensures first_branch { outcome branches 8 (0 ∷ []) ≡ (7, Ends (10 ∷ [])) }
    ensures second_branch { outcome branches 8 (1 ∷ []) ≡ (7, Ends (11 ∷ [])) }
    ensures other_branch { outcome branches 8 (5 ∷ []) ≡ (6, Ends (12 ∷ [])) }
    ensures back { outcome goes_back 9 (2 ∷ []) ≡ (20, Ends (100 ∷ [])) }
    ensures quotient { outcome divides 10 (7 ∷ 2 ∷ []) ≡ (3, Ends (3 ∷ [])) }
    ensures by_zero { outcome divides 10 (7 ∷ 0 ∷ []) ≡ (2, Traps DivideByZero) }
    ensures overflow { outcome divides 10 (0x8000_0000 ∷ 0xFFFF_FFFF ∷ []) ≡ (2, Traps DivideOverflow) }
    ensures global { outcome keeps 11 (42 ∷ []) ≡ (3, Ends (42 ∷ [])) }
    ensures bytes { outcome writes 12 (4 ∷ 0x0403_0201 ∷ []) ≡ (5, Ends (0x0302 ∷ [])) }
    ensures past_bytes { outcome writes 12 (5 ∷ 0x0403_0201 ∷ []) ≡ (2, Traps MemoryBounds) }
    ensures far_bytes { outcome writes 12 (0xFFFF_FFFF ∷ 1 ∷ []) ≡ (2, Traps MemoryBounds) }
    ensures no_way { outcome stops 13 [] ≡ (1, Traps Unreachable) }
    ensures a_last_frame { next store (nested 510) ≡ Goes true store (nested 511) }
    ensures one_frame_more { next store (nested 511) ≡ Traps StackLimit }
    ensures first_selected { outcome selects 0 (1 ∷ []) ≡ (4, Ends (7 ∷ [])) }
    ensures second_selected { outcome selects 0 (0 ∷ []) ≡ (4, Ends (8 ∷ [])) }
    ensures first_part { outcome chooses 0 (1 ∷ []) ≡ (3, Ends (1 ∷ [])) }
    ensures second_part { outcome chooses 0 (0 ∷ []) ≡ (3, Ends (2 ∷ [])) }
    ensures copy { outcome copies 0 [] ≡ (9, Ends (0x201 ∷ [])) }
    ensures fill { outcome fills 0 [] ≡ (6, Ends (0x00AB_AB00 ∷ [])) }
    ensures host_called { next store host_alone ≡ Calls 4 (9 ∷ []) (Given []) }
    ensures host_answered { answered (8 ∷ []) (next store host_alone) ≡ (0, Ends (8 ∷ [])) }
{}

/// What a move costs: a unit for a call out of a frame and for a trap, and none for a function of the host alone.
pub(crate) fn costs()
    ensures trap { cost (nested 511) (next store (nested 511)) ≡ 1 }
    ensures call { cost at_call (next store at_call) ≡ 1 }
    ensures alone { cost host_alone (next store host_alone) ≡ 0 }
{}

/// A module that is added: segments in order, up to one that does not fit, and the call of the start function.
pub(crate) fn segments()
    ensures all { written (added (segment 0 (1 ∷ 0 ∷ []) ∷ segment 1 (1 ∷ []) ∷ [])) ≡ (true, (Some 1 ∷ Some 1 ∷ None ∷ []) ∷ []) }
    ensures up_to_one { written (added (segment 2 (1 ∷ []) ∷ segment 2 (0 ∷ 0 ∷ []) ∷ segment 0 (1 ∷ []) ∷ [])) ≡ (false, (None ∷ None ∷ Some 1 ∷ []) ∷ []) }
    ensures none_at_the_end { written (added (segment 3 [] ∷ [])) ≡ (true, (None ∷ None ∷ None ∷ []) ∷ []) }
    ensures none_past_the_end { written (added (segment 4 [] ∷ [])) ≡ (false, (None ∷ None ∷ None ∷ []) ∷ []) }
    ensures call { starts (added []) ≡ Some (Running (first_frame (arrow [] []) 0 [] End []) []) }
{}
