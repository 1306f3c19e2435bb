ghost use Rattle.std.specs.Prelude.{◌≡◌, IfOk, string_bytes};
ghost use Rattle.board_draft.specs.Text.{property_of, text_of};

use crate::fault::BoardFault;
use constraints::Prop;
use std::alloc::{AllocError, Global};
use std::str;

/// The word of a property: its name, and of a supply, whose names differ, one word.
fn property_text(prop: Prop) -> &'static str
    ensures { result.now ≡ property_of prop }
{
    match prop {
        Prop::Supply => "supply",
        named => str::from_utf8(named.name()).unwrap(),
    }
}

/// The text of a refusal.
fn fault_text(alloc: Global, fault: BoardFault) -> Result<String, AllocError>
    ensures { IfOk result (λ text. string_bytes text ≡ text_of fault) }
{
    match fault {
        BoardFault::TooManyChips(n) => format!(in alloc; "toomanychips {n}"),
        BoardFault::UnknownChip(at) => format!(in alloc; "unknownchip {at}"),
        BoardFault::TooManyRails(n) => format!(in alloc; "toomanyrails {n}"),
        BoardFault::NoRails => format!(in alloc; "norails"),
        BoardFault::NameTooLong(r) => format!(in alloc; "nametoolong {r}"),
        BoardFault::TwoNames(a, b) => format!(in alloc; "twonames {a} {b}"),
        BoardFault::BadCells { rail, prop } => {
            let property = property_text(prop);
            format!(in alloc; "badcells {rail} {property}")
        }
        BoardFault::OneBound(r) => format!(in alloc; "onebound {r}"),
        BoardFault::Reversed(r) => format!(in alloc; "reversed {r}"),
        BoardFault::FixedRange(r) => format!(in alloc; "fixedrange {r}"),
        BoardFault::NoValueInside(r) => format!(in alloc; "novalueinside {r}"),
        BoardFault::BadMode { rail, n } => format!(in alloc; "badmode {rail} {n}"),
        BoardFault::SuspendValue(r) => format!(in alloc; "suspendvalue {r}"),
        BoardFault::NoSupply(r) => format!(in alloc; "nosupply {r}"),
        BoardFault::SupplyLoop(r) => format!(in alloc; "supplyloop {r}"),
        BoardFault::NoCouple(r) => format!(in alloc; "nocouple {r}"),
        BoardFault::OneWay(a, b) => format!(in alloc; "oneway {a} {b}"),
        BoardFault::NoSpread(r) => format!(in alloc; "nospread {r}"),
        BoardFault::SpreadsDiffer(a, b) => format!(in alloc; "spreadsdiffer {a} {b}"),
        BoardFault::CoupledSupplier(a, b) => format!(in alloc; "coupledsupplier {a} {b}"),
        BoardFault::GroupLoop(r) => format!(in alloc; "grouploop {r}"),
        BoardFault::GapOverSpread(a, gap, spread) => {
            format!(in alloc; "gapoverspread {a} {gap} {spread}")
        }
        BoardFault::GapOverStep(r, gap, step) => format!(in alloc; "gapoverstep {r} {gap} {step}"),
        BoardFault::SuspendSpread(a, b) => format!(in alloc; "suspendspread {a} {b}"),
        BoardFault::LoadOverModes(r, sum) => format!(in alloc; "loadovermodes {r} {sum}"),
        BoardFault::Memory => Ok(String::new(alloc)),
    }
}

impl BoardFault {
    ghost use Rattle.std.specs.Prelude.{◌≡◌, ◌++◌, OnOk, OnErr};
    ghost use Rattle.board_draft.specs.Text.{text_of};

    /// Appends the text of the refusal: its word, and its numbers in decimal. `Memory` has an empty one.
    /// On want of memory `out` is as before.
    pub fn text(&self, alloc: Global, out: &mut Vec<u8>) -> Result<(), AllocError>
        ensures ok { OnOk result (out.new.items ≡ out.old.items ++ text_of self.now) }
        ensures err { OnErr result (out.new.items ≡ out.old.items) }
    {
        let text = fault_text(alloc, *self)?;
        out.extend_from_slice(text.as_bytes())
    }
}
