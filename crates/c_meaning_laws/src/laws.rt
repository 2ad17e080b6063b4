//! Laws of the meaning, each on a function of its own without a body.
ghost use Rattle.c_meaning_laws.specs.Addresses.{AddressOfIndexIsSum, AddressOfTargetIsPointer, TargetOfAddressIsPlace};
ghost use Rattle.c_meaning_laws.specs.Assigned.{AssignmentIsRead};
ghost use Rattle.c_meaning_laws.specs.Calls.{CallExpressionLeavesHidden, CallLeavesHidden};
ghost use Rattle.c_meaning_laws.specs.Chains.{ChainGroupsLeft};
ghost use Rattle.c_meaning_laws.specs.Choices.{CommaIsSequence, ConditionalIsIf, NegatedConditionSwaps};
ghost use Rattle.c_meaning_laws.specs.Compound.{CompoundIsOperation, CompoundOfVariable, TypedTargetMeets};
ghost use Rattle.c_meaning_laws.specs.Declared.{DeclaredHoldsNothing, ReadIsMet};
ghost use Rattle.c_meaning_laws.specs.Discarding.{CastDiscards, StatementDiscards};
ghost use Rattle.c_meaning_laws.specs.Exits.{ReturnOfMainExits, RunIsOfMain, TypedMainMeets};
ghost use Rattle.c_meaning_laws.specs.Frames.{BodyBeginsAfresh, VariablesDie};
ghost use Rattle.c_meaning_laws.specs.Indexing.{FollowedIndexMeansSum, IndexIsPlaceOfSum, IndexMeansSum, TypedIndexMeets};
ghost use Rattle.c_meaning_laws.specs.Initialising.{DeclarationIsOneOfEach, InitialiserIsAssignment};
ghost use Rattle.c_meaning_laws.specs.Joints.{AndIsConditional, OrIsConditional};
ghost use Rattle.c_meaning_laws.specs.Lists.{ListLeavesZero};
ghost use Rattle.c_meaning_laws.specs.Members.{ArrowIsMember, TypedArrowMeets};
ghost use Rattle.c_meaning_laws.specs.Negation.{NotIsEqualsZero, TypedValueMeets};
ghost use Rattle.c_meaning_laws.specs.Passing.{CallPassesArguments, ReturnIsAssigned};
ghost use Rattle.c_meaning_laws.specs.Rounds.{BlockIsEntries, DoIsFirstRound, ForIsWhile, ForStartsBefore, ForWithoutStepIsWhile};
ghost use Rattle.c_meaning_laws.specs.Rounds.{MissingConditionIsTrue, WhileIsFirstRound};
ghost use Rattle.c_meaning_laws.specs.Steps.{DecrementIsDifference, IncrementIsSum, StepBehindIsStep};
ghost use Rattle.c_meaning_laws.specs.Turns.{CutBegins, CutTextBegins, UncutStays, UncutTextStays};

/// `a[i]` is `*(a + i)`, whatever a and i do: it finds the same place in the same state, or meets the same trap (C99 6.5.2.1p2). As a whole both
/// mean the same where they have one type, and with any postfix operators behind them. An index whose types fit meets the premises.
pub fn an_index_is_the_place_of_a_sum()
    ensures place { IndexIsPlaceOfSum }
    ensures whole { IndexMeansSum }
    ensures followed { FollowedIndexMeansSum }
    ensures typed { TypedIndexMeets }
{}

/// `e;` does what `(void)(e);` does, and where e has a type whose values are used, it does what e does and lets the value go: an undefined one stops
/// nothing (C99 6.8.3p2, 6.3.2.2).
pub fn a_statement_discards()
    ensures cast { CastDiscards }
    ensures value { StatementDiscards }
{}

/// A variable holds nothing behind a declaration that doesn't initialise it, each time that control comes there (C99 6.2.4p5, 6.7.8p10), and to take the
/// value of a variable that holds nothing is a trap.
pub fn a_declaration_leaves_its_variable_undefined()
    ensures declared { DeclaredHoldsNothing }
    ensures read { ReadIsMet }
{}

/// `x op= e` is `x = x op e` for each operator, where e changes nothing in the state in which it stands (C99 6.5.16.2p3): for each place x that is
/// found without a change, as each variable is. What is assigned to where types fit is a place.
pub fn a_compound_assignment_is_its_operation()
    ensures place { CompoundIsOperation }
    ensures variable { CompoundOfVariable }
    ensures typed { TypedTargetMeets }
{}

/// An element of an array that its list doesn't reach is zero behind it, whatever the array held before, where no item stores there (C99 6.7.8p21).
pub fn a_list_leaves_zero_behind_it()
    ensures { ListLeavesZero }
{}

/// Turns only cut a run: one that isn't cut by them is the same within any greater bound, and what a run wrote and saw begins what it writes and sees
/// within a greater bound: `same` and `begins` say it of what the meaning sees of a text, the others of a text.
pub fn turns_only_cut()
    ensures same { UncutStays }
    ensures begins { CutBegins }
    ensures text_same { UncutTextStays }
    ensures text_begins { CutTextBegins }
{}

/// A `while` is an `if` of its first round with the loop again behind it, and a `do` is its body with the condition and the loop again behind it,
/// where each round but the first one spends a turn (C99 6.8.5.1, 6.8.5.2).
pub fn a_while_is_its_first_round()
    ensures while_loop { WhileIsFirstRound }
    ensures do_loop { DoIsFirstRound }
{}

/// A `for` is its `while`, with the third part behind a body that meets no `continue` of its own, and with a condition alone behind any body. Its first part
/// stands before it, within a block of its own (C99 6.8.5.3).
pub fn a_for_is_its_while()
    ensures step { ForIsWhile }
    ensures alone { ForWithoutStepIsWhile }
    ensures start { ForStartsBefore }
{}

/// A block within a block does what its entries do in its place (C99 6.8.2).
pub fn a_block_is_its_statements()
    ensures { BlockIsEntries }
{}

/// `++E` is `E += 1`, and `--E` is `E -= 1`: both mean the same, whatever E is and in each state (C99 6.5.3.1p2). Where nothing takes its value, `E++`
/// does what `++E` does, and `E--` what `--E` does (C99 6.5.2.4p2).
pub fn a_step_is_its_assignment()
    ensures increment { IncrementIsSum }
    ensures decrement { DecrementIsDifference }
    ensures behind { StepBehindIsStep }
{}

/// `!E` is `0 == E` where what E gives is a value of its type: of a number, and of a pointer, which is compared with null (C99 6.5.3.3p5). Where types fit it
/// is, if a number that it gives lies in the range of its kind.
pub fn a_negation_is_a_comparison_with_zero()
    ensures equal { NotIsEqualsZero }
    ensures typed { TypedValueMeets }
{}

/// `p->m` is `(*p).m`: it finds the same member in the same state, or meets the same trap, as of null and of a dead object (C99 6.5.2.3p4). Both mean
/// the same, with any postfix operators behind them. An arrow whose types fit meets the premises.
pub fn an_arrow_is_a_member_of_a_target()
    ensures whole { ArrowIsMember }
    ensures typed { TypedArrowMeets }
{}

/// `&a[i]` is `a + i`, whatever a and i do: the same pointer in the same state, or the same trap. `&*p` is `p` where p leads to an object, and `*&x` is x
/// where types fit (C99 6.5.3.2p3, p4).
pub fn an_address_is_a_sum()
    ensures index { AddressOfIndexIsSum }
    ensures target { AddressOfTargetIsPointer }
    ensures place { TargetOfAddressIsPlace }
{}

/// `a && b` is `a ? b ? 1 : 0 : 0`, and `a || b` is `a ? 1 : b ? 1 : 0`, where the inner condition has no site: the right side is evaluated where the left
/// one leaves it open, and what they give is an `int`, 0 or 1 (C99 6.5.13p3, p4, 6.5.14p3, p4).
pub fn a_joint_is_a_conditional()
    ensures both { AndIsConditional }
    ensures either { OrIsConditional }
{}

/// `for (;;)` is `for (; 1;)`, but for the site of that condition (C99 6.8.5.3p2).
pub fn a_missing_condition_is_true()
    ensures { MissingConditionIsTrue }
{}

/// `return v` of the first `main` is `exit(v)`, wherever these stand in its body: with some of the one in place of the other the run ends the same, and
/// wrote and saw the same (C99 5.1.2.2.3p1). `run` says that what a text means is such a run. A body whose types fit returns an `int`, if that lies in the
/// range of one.
pub fn a_return_of_main_exits()
    ensures ends { ReturnOfMainExits }
    ensures run { RunIsOfMain }
    ensures typed { TypedMainMeets }
{}

/// `int x = e;` is `int x; x = e;`, but for the tokens (C99 6.7.8p11), and a declaration of several variables is one of each, in their order (C99 6.7p6).
pub fn an_initialiser_is_an_assignment()
    ensures assigned { InitialiserIsAssignment }
    ensures each { DeclarationIsOneOfEach }
{}

/// A call leaves alone the objects to which no pointer leads, as its caller's variables whose addresses were not taken: behind it each of their cells is
/// what it was, whatever the function does and calls (C99 6.2.4p2, 6.5.2.2p4, 6.9.1p9). So a call can change a variable of its caller by a pointer alone.
pub fn a_call_leaves_what_nothing_leads_to()
    ensures function { CallLeavesHidden }
    ensures expression { CallExpressionLeavesHidden }
{}

/// A call of a function has variables of its own (C99 6.2.4p5, 6.5.2.2p4, 6.9.1p9, p10). As its body begins each of them is a new object, a parameter holds
/// its argument, and each object from before is what it was. Behind the call they are dead.
pub fn a_call_has_variables_of_its_own()
    ensures begins { BodyBeginsAfresh }
    ensures dies { VariablesDie }
{}

/// A call evaluates its arguments from the left, each as a cast to the type of its parameter gives it, and then is the body of the function, whose
/// parameters hold them in their order, and which calls the functions of the text (C99 6.5.2.2p4, p7, p10, 6.9.1p10).
pub fn a_call_passes_its_arguments()
    ensures { CallPassesArguments }
{}

/// `return e;` gives what an assignment of e to an object of the function's type stores there (C99 6.8.6.4p3).
pub fn a_return_is_an_assignment()
    ensures { ReturnIsAssigned }
{}

/// Operators of one level group from the left: `a - b - c` is `(a - b) - c`, and so on, for each operator of two operands (C99 6.5.5 to 6.5.14).
pub fn a_chain_groups_from_the_left()
    ensures { ChainGroupsLeft }
{}

/// `x, y;` is `x; y;`, `c ? x : y;` without values is `if (c) x; else y;`, and `if (!c) x else y` is `if (c) y else x`, but for a site of the condition
/// (C99 6.5.17p2, 6.5.15p4, 6.8.4.1p2).
pub fn expressions_are_statements()
    ensures comma { CommaIsSequence }
    ensures conditional { ConditionalIsIf }
    ensures negation { NegatedConditionSwaps }
{}

/// What an assignment to a variable gives is what the variable gives behind it: for a simple and for a compound one, where types fit (C99 6.5.16p3).
pub fn an_assignment_is_what_its_variable_holds()
    ensures { AssignmentIsRead }
{}
