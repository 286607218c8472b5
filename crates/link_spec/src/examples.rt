//! Examples of the definitions, worked out by hand.

ghost use Rattle.std.specs.Prelude.{◌≡◌, true, false, [], ◌∷◌, None, Some, Ok, codes};
ghost use Rattle.syntax_trees.specs.declared.module_types.ValType.TheVariants.{I32};
ghost use Rattle.comp_tree.specs.declared.instances.Sort.TheVariants as sorts;
ghost use Rattle.comp_tree.specs.declared.externs.ExternDesc.TheVariants as desc;
ghost use Rattle.comp_tree.specs.declared.types.ValTypeRef.TheVariants as type_ref;
ghost use Rattle.comp_tree.specs.declared.types.PrimValType.TheVariants.{String};
ghost use Rattle.comp_tree.specs.declared.types.DefType.TheVariants as plain_type;
ghost use Rattle.comp_tree.specs.declared.items.CanonOption.TheVariants as option;
ghost use Rattle.comp_tree.specs.declared.items.Item.TheVariants as plain;
ghost use Rattle.comp_graph.specs.Graph.{no_options};
ghost use Rattle.comp_graph.specs.Needs.{lifted_type, lowered_type, lift_type, lower_type, needs_memory, lift_needs_memory, lift_needs_realloc, lower_needs_memory, lower_needs_realloc};
ghost use Rattle.comp_graph.specs.declared.graph.BuiltinKind.TheVariants as builtin;
ghost use Rattle.comp_tree.specs.declared.builtins.CanonBuiltin.TheVariants as read_builtin;
ghost use Rattle.builtin_kinds.specs.declared.PlainBuiltin.TheVariants as plain_builtin;
ghost use Rattle.builtin_kinds.specs.declared.ResourceOp.TheVariants as resource_op;
ghost use Rattle.builtin_kinds.specs.declared.ContextOp.TheVariants as context_op;
ghost use Rattle.builtin_kinds.specs.declared.WaitOp.TheVariants as wait_op;
ghost use Rattle.link_spec.specs.declared.fault.LinkWhy.TheVariants as why;
ghost use Rattle.link_spec.specs.Computed.{linked};
ghost use Rattle.link_spec.specs.Examples.{root, fault, u32, list_of, record_of, lists, of_lists, import, outer, export_type, instantiate, wanting, giving_both, nesting, begins, of_one, make, make_with_absent, lifting, lifting_twice, with_memory, callable_as, lowering, lowering_string, taking_string, giving_string, passing, passed, returning, built, making, resource, of_resource, using, used, defining_twice, defined_twice, taking_outer, taken_outer, with_async, with_callback};

/// Faults of one item: an import of the root that is a function, also where its index is not there; an outer alias that goes
/// past the root; and an export of a name that was exported.
pub fn faults()
    ensures root_import { linked (root (import (desc.Func 0) ∷ [])) ≡ fault 0 why.RootImport }
    ensures too_far { linked (root (outer sorts.Type 1 0 ∷ [])) ≡ fault 0 why.Index }
    ensures twice { linked (root (plain.Type u32 ∷ export_type (codes "a") ∷ export_type (codes "a") ∷ [])) ≡ fault 2 why.Typing }
{}

/// A record over a list of lists is linked. A record without fields is refused, and one with a label twice; where an index is not
/// there, that is told first.
pub fn value_types()
    ensures made { linked (root (plain.Type u32 ∷ list_of 0 ∷ list_of 1 ∷ record_of (codes "a" ∷ codes "b" ∷ []) 2 ∷ [])) ≡ begins (0 ∷ []) }
    ensures empty { linked (root (record_of [] 0 ∷ [])) ≡ fault 0 why.Typing }
    ensures twice { linked (root (plain.Type u32 ∷ record_of (codes "a" ∷ codes "a" ∷ []) 0 ∷ [])) ≡ fault 1 why.Typing }
    ensures not_there { linked (root (record_of (codes "a" ∷ codes "a" ∷ []) 0 ∷ [])) ≡ fault 0 why.Index }
{}

/// Types nest at most 32 types in one another: behind u32 and 31 lists, each of the type before, one more list is refused.
pub fn depths()
    ensures within { linked (lists 31) ≡ begins (0 ∷ []) }
    ensures beyond { linked (lists 32) ≡ fault 32 why.Limit }
{}

/// In an instance type all other reasons come first, also those of an export of a type that is too deep: it is no type of
/// functions.
pub fn depths_in_instance_types()
    ensures within { linked (of_lists 31 []) ≡ begins (0 ∷ []) }
    ensures beyond { linked (of_lists 32 []) ≡ fault 0 why.Limit }
    ensures exported { linked (of_lists 32 (plain_type.Export (codes "a") (desc.TypeEq 32) ∷ [])) ≡ fault 0 why.Limit }
    ensures no_function { linked (of_lists 32 (plain_type.Export (codes "a") (desc.Func 32) ∷ [])) ≡ fault 0 why.Typing }
    ensures not_there { linked (of_lists 32 (plain_type.Export (codes "a") (desc.TypeEq 33) ∷ [])) ≡ fault 0 why.Index }
{}

/// A component that is never instantiated is linked, although it imports what nothing gives. Where it is instantiated, its
/// import is refused, at the import's place.
pub fn imports()
    ensures never_instantiated { linked (root (wanting ∷ [])) ≡ begins (0 ∷ []) }
    ensures instantiated { linked (root (wanting ∷ instantiate ∷ [])) ≡ fault 11 (why.Missing (codes "in")) }
{}

/// An instance that exports more than an import asks for is seen with what is asked for alone.
pub fn seen()
    ensures asked { linked (giving_both (codes "a")) ≡ begins (0 ∷ 1 ∷ []) }
    ensures not_asked { linked (giving_both (codes "b")) ≡ fault 12 (why.Missing (codes "b")) }
{}

/// A component that instantiates itself is refused where the 257th instance would begin.
pub fn too_many()
    ensures { linked (root (nesting ∷ instantiate ∷ [])) ≡ fault 11 why.Limit }
{}

/// A function of a core instance that is lifted and exported can be called. An argument of a core instance is to be there, also
/// where no import is of it.
pub fn core_instances()
    ensures lifted { linked (root (lifting [])) ≡ Ok (callable_as no_options (codes "run" ∷ [])) }
    ensures absent { linked (root (plain.CoreModule of_one ∷ make_with_absent ∷ [])) ≡ fault 1 why.Index }
{}

/// A lift with a memory is linked. With the memory twice it is refused, with a callback alone, and with `async` where its core function
/// gives the result.
pub fn options()
    ensures made { linked (root (lifting (option.Memory 0 ∷ []))) ≡ Ok (callable_as with_memory (codes "run" ∷ [])) }
    ensures twice { linked (root (lifting (option.Memory 0 ∷ option.Memory 0 ∷ []))) ≡ fault 5 why.Canon }
    ensures callback { linked (root (lifting (option.Callback 0 ∷ []))) ≡ fault 5 why.Canon }
    ensures asynchronous { linked (root (lifting (option.Async ∷ []))) ≡ fault 5 why.Canon }
{}

/// A function that is exported as `a#run`, and a function `run` of an instance that is exported as `a`, can be called under one
/// name.
pub fn one_name()
    ensures { linked (root lifting_twice) ≡ Ok (callable_as no_options (codes "a#run" ∷ codes "a#run" ∷ [])) }
{}

/// A function that is lifted, lowered and passed to a core module is what the core instance imports. A function that is not there
/// is not lowered.
pub fn lowers()
    ensures made { linked (root passing) ≡ Ok passed }
    ensures not_there { linked (root (lowering 1 [])) ≡ fault 6 why.Index }
{}

/// A function that gives a string is not lowered without a memory, nor with a memory alone, as the string needs a place in it. A
/// lower with a `post-return` is refused.
pub fn options_of_lowers()
    ensures no_memory { linked (root (lowering_string [])) ≡ fault 6 why.Canon }
    ensures no_realloc { linked (root (lowering_string (option.Memory 0 ∷ []))) ≡ fault 6 why.Canon }
    ensures post_return { linked (root (lowering 0 (option.PostReturn 0 ∷ []))) ≡ fault 6 why.Canon }
{}

/// A lower of a function that takes a string needs a memory alone, where its lift needs a place in it too. The core function to
/// which a function that gives a string is lowered takes the place of the result, where that which is lifted gives it.
pub fn types_of_lowers()
    ensures memory { needs_memory taking_string ≡ true }
    ensures no_place { lower_needs_realloc taking_string ≡ false }
    ensures lifted_place { lift_needs_realloc taking_string ≡ true }
    ensures lowered { lowered_type giving_string ≡ record { params = I32 ∷ []; results = [] } }
    ensures lifted { lifted_type giving_string ≡ record { params = []; results = I32 ∷ [] } }
{}

/// A lift with `async` is of a core function that gives nothing, and with a callback of one that gives a code; its result needs no
/// memory. A lower with `async` takes a place for each result and gives the subtask's state.
pub fn types_of_kinds()
    ensures lifted { lift_type with_async giving_string ≡ record { params = []; results = [] } }
    ensures called_back { lift_type with_callback giving_string ≡ record { params = []; results = I32 ∷ [] } }
    ensures no_memory { lift_needs_memory true giving_string ≡ false }
    ensures lowered { lower_type true giving_string ≡ record { params = I32 ∷ []; results = I32 ∷ [] } }
    ensures memory { lower_needs_memory true giving_string ≡ true }
{}

/// Built-ins are made. Where the memory is not there in which an event is put, or a word of the task, one is refused; and so is one that
/// returns a result of a type that is not there, or a string without a memory.
pub fn builtins()
    ensures made { linked (built (read_builtin.Plain plain_builtin.WaitableSetNew)) ≡ making (builtin.Plain plain_builtin.WaitableSetNew) }
    ensures word { linked (built (read_builtin.Context context_op.Set 1)) ≡ making (builtin.Context context_op.Set 1) }
    ensures no_word { linked (built (read_builtin.Context context_op.Set 2)) ≡ fault 0 why.Canon }
    ensures no_memory { linked (built (read_builtin.Wait wait_op.Poll false 0)) ≡ fault 0 why.Index }
    ensures returns { linked (built (returning None)) ≡ making (builtin.TaskReturn None no_options) }
    ensures no_type { linked (built (returning (Some (type_ref.Index 0)))) ≡ fault 0 why.Index }
    ensures no_result_memory { linked (built (returning (Some (type_ref.Primitive String)))) ≡ fault 0 why.Canon }
{}

/// A resource is defined by a component instance, each instance of a component defines one of its own, and a component inside sees that of
/// the one around it: it drops handles, and makes none. A destructor that is not there is refused, and a type that is none of resources.
pub fn resources()
    ensures made { linked (using resource_op.New) ≡ used resource_op.New }
    ensures twice { linked defining_twice ≡ defined_twice }
    ensures dropped { linked (taking_outer resource_op.Drop) ≡ taken_outer }
    ensures not_made { linked (taking_outer resource_op.New) ≡ fault 11 why.Canon }
    ensures no_destructor { linked (root (resource (Some 0) ∷ [])) ≡ fault 0 why.Index }
    ensures no_resource { linked (root (plain.Type u32 ∷ of_resource resource_op.Rep ∷ [])) ≡ fault 1 why.Typing }
{}
