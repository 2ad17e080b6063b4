//! Laws: what the meaning of a text says in the terms of C99, each of the state in which a construct stands; and that no run of a text whose types fit
//! comes to trap Internal, and its sites change nothing but what is seen.
#![tactic(auto)]

mod laws;
mod never_faults;

pub use laws::{
    a_block_is_its_statements, a_call_has_variables_of_its_own,
    a_call_leaves_what_nothing_leads_to, a_call_passes_its_arguments, a_chain_groups_from_the_left,
    a_compound_assignment_is_its_operation, a_declaration_leaves_its_variable_undefined,
    a_for_is_its_while, a_joint_is_a_conditional, a_list_leaves_zero_behind_it,
    a_missing_condition_is_true, a_negation_is_a_comparison_with_zero, a_return_is_an_assignment,
    a_return_of_main_exits, a_statement_discards, a_step_is_its_assignment,
    a_while_is_its_first_round, an_address_is_a_sum, an_arrow_is_a_member_of_a_target,
    an_assignment_is_what_its_variable_holds, an_index_is_the_place_of_a_sum,
    an_initialiser_is_an_assignment, expressions_are_statements, turns_only_cut,
};
pub use never_faults::{a_typed_text_never_faults, sites_change_nothing};
