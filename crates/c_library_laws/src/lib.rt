//! Laws: what the functions of the library do in the meaning of a text, said again in the words of C99 7.2, 7.19 and 7.20, by digits, bytes and objects.
#![tactic(auto)]

mod laws;

pub use laws::{
    exit_abort_and_assert_end_runs, free_releases, getchar_reads, malloc_allocates, printf_prints,
    puts_and_putchar_print,
};
