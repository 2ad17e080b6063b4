//! Laws of the commands one after another: the headline, from a C text to the ranking of its runs; a written program runs as its text means, a ranking of
//! its runs is that of their meanings, a study is the chain of the others, and a widened collection is one of the whole program; a farm's ranking is the
//! elimination of its runs, and nothing on the way is refused; `runs` does what its calls do.
#![tactic(auto)]

mod farm;
mod headline;
mod laws;
mod listed;
mod running;
mod unrefused;

pub use farm::a_farm_is_the_elimination;
pub use headline::{
    a_session_is_the_headline, bugs_are_of_meant_runs, cards_are_of_meant_runs,
    collections_hold_their_runs, lines_are_of_meant_runs, pairs_are_of_meant_runs,
    the_commands_are_the_headline,
};
pub use laws::{
    a_ranking_of_runs_is_the_elimination, a_study_is_its_chain,
    a_widened_collection_is_of_the_whole, written_programs_run_as_the_text_means,
};
pub use listed::{runs_are_their_calls, the_ranking_of_runs_is_the_elimination};
pub use running::a_written_file_runs_as_the_text_means;
pub use unrefused::{no_runs_are_refused, no_session_is_refused, nothing_on_the_way_is_refused};
