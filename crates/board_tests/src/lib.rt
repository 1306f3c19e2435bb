//! The tests of all that stands below the command: each public call once with ample memory, and the data
//! sheets of the chips.
#![tactic(auto)]

#[cfg(test)]
mod asked;
#[cfg(test)]
mod books;
#[cfg(test)]
mod chips;
#[cfg(test)]
mod counts;
#[cfg(test)]
mod graphs;
#[cfg(test)]
mod handle_rows;
#[cfg(test)]
mod items;
#[cfg(test)]
mod laws;
#[cfg(test)]
mod lists;
#[cfg(test)]
mod modes;
#[cfg(test)]
mod names;
#[cfg(test)]
mod outside;
#[cfg(test)]
mod rails;
#[cfg(test)]
mod ranges;
#[cfg(test)]
mod registers;
#[cfg(test)]
mod requests;
#[cfg(test)]
mod same;
#[cfg(test)]
mod times;
#[cfg(test)]
mod tokens;
