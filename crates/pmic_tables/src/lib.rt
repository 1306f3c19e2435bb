//! The power chips that are known: a chip's name gives exactly the rails and the registers of its data sheet.
#![tactic(auto)]

mod chip_desc;
mod kind;
mod layout;
mod named;
mod pm12;
mod pm4;
mod pm8;
mod row;
mod tables;
mod values;

pub use chip_desc::{ChipDesc, ChipRail};
pub use named::chip;
