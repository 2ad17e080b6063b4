//! Laws of calls of the executable one after another: what is put out at the end, by words, files, outs and statuses alone. That what the top call says makes
//! such a call is a law too.
#![tactic(auto)]

mod call;
mod closed;

pub use call::each_call_is_one;
pub use closed::{
    a_farm_of_calls_is_the_headline, a_session_of_calls_is_the_headline, a_study_is_the_headline,
    bugs_of_calls_are_of_meant_runs, cards_of_calls_are_of_meant_runs,
    lines_of_calls_are_of_meant_runs, pairs_of_calls_are_of_meant_runs,
    the_executable_is_the_headline, the_runs_of_a_list_are_the_headline,
};
