//! Laws: what the rule on words says of a command line, in a user's terms.
#![tactic(auto)]

mod laws;

pub use laws::{
    bad_values_are_no_command, command_stays, commands_take_what_is_said, joined_reads_alike,
    options_change_places, options_stand_anywhere, the_end_ends_options, words_are_read_in_order,
};
