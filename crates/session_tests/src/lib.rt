//! The tests of the command: whole sessions, with what is printed of each, and how reading, writing and the bus
//! may fail; and the lines of calls and of rows, read back.
#![tactic(auto)]

#[cfg(test)]
mod call_lines;
#[cfg(test)]
mod row_lines;
#[cfg(test)]
mod same;
#[cfg(test)]
mod seen;
#[cfg(test)]
mod sessions;
#[cfg(test)]
mod small_board;
#[cfg(test)]
mod usage;
