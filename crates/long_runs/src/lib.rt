//! A long run: the rows of its card and its lines, made from a number, and the counts of its trace.
#![tactic(auto)]

mod count_laws;
mod counting_sink;
mod counts;
mod fixed_rows;
mod load_lines;
mod rows;
mod told_text;
mod walk;

pub use count_laws::counts_are_those_of_the_lines;
pub use counting_sink::CountingSink;
pub use counts::Counts;
pub use fixed_rows::fixed_row;
pub use load_lines::{LoadLines, line_of};
pub use rows::describe_rows;
