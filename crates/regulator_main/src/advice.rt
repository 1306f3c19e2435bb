//! What to change in a session that is refused.
use board_draft::BoardFault;
use session::{SessionFault, SessionKind};

/// What to change in a session, or in its board, so that it isn't refused for this fault. Rails are numbered
/// from 0 in the board's order: those of the chips first, as the chips' tables list them, and then the fixed ones.
pub(crate) fn advice(fault: &SessionFault) -> &'static str {
    match fault.kind {
        SessionKind::TooLong => "give at most 4194304 bytes",
        SessionKind::BadSession => line_advice(fault.line),
        SessionKind::NotYet => "leave out what isn't built yet, on this line or on this board",
        SessionKind::TooManyWorkers => "give at most 16 workers",
        SessionKind::TooManyLines => "give each worker at most 4096 calls",
        SessionKind::BadChar(_) =>
            "mend the byte there, at which no token, escape or number begins",
        SessionKind::Unclosed(_) => "end the string or comment that begins there",
        SessionKind::NumberTooWide(_) => "write a number of at most 4294967295",
        SessionKind::Syntax(_) => "mend what stands there, or the end of what stands before it",
        SessionKind::NoLabel(_) =>
            "give the label there to a node; before a body, to an earlier one",
        SessionKind::TwoLabels(_) => "give the label there to one node alone",
        SessionKind::NotSupported(_) =>
            "write the nodes and properties out, without what stands there",
        SessionKind::TooDeep(_) => "nest nodes at most 32 deep",
        SessionKind::Board(fault) => board_advice(fault),
        SessionKind::BadReg => "name a chip of the board; the first is number 0",
        SessionKind::NoVector(_) =>
            "widen the bounds of the rail or of what moves with it, or the spread",
        SessionKind::Memory => "give the program more memory",
    }
}

/// What a line has to be, by where it stands.
fn line_advice(line: u32) -> &'static str {
    match line {
        1 =>
            "write '%session 1', with neither a byte order mark before it nor a carriage return behind it",
        2 => "write '%board demo' or '%board dts'",
        _ => {
            "write '%reg', '%fault', '%worker' or '%done', ended by a newline, and end each board text and worker by '%end'"
        }
    }
}

/// What to change in the nodes of a board.
fn board_advice(fault: BoardFault) -> &'static str {
    match fault {
        BoardFault::TooManyChips(_) =>
            "give the board at most 16 chips, where the fixed rails make one",
        BoardFault::UnknownChip(_) => "make the node there compatible with a chip that is known",
        BoardFault::TooManyRails(_) => "give the board at most 64 rails",
        BoardFault::NoRails => "give the board a chip with a rail, or a fixed rail",
        BoardFault::NameTooLong(_) => "give the rail a name of at most 64 bytes",
        BoardFault::TwoNames(_, _) => "give one of the two rails another regulator-name",
        BoardFault::BadCells { .. } =>
            "give the rail's property the form that the binding has for it",
        BoardFault::OneBound(_) => "give the rail both bounds, or neither",
        BoardFault::Reversed(_) => "give the rail a least bound that isn't above its greatest",
        BoardFault::FixedRange(_) => "give the fixed rail two equal bounds, or none",
        BoardFault::NoValueInside(_) => "let a value of the rail's table lie within its bounds",
        BoardFault::BadMode { .. } => "give modes as 1, 2, 4 or 8",
        BoardFault::SuspendValue(_) =>
            "suspend the rail at a value of its table, within its bounds",
        BoardFault::NoSupply(_) => "name a rail as the supply, or none",
        BoardFault::SupplyLoop(_) => "break the loop of the rail's supplies",
        BoardFault::NoCouple(_) => "couple the rail with other rails, each named once",
        BoardFault::OneWay(_, _) => "let all rails of a group name each other",
        BoardFault::NoSpread(_) => "give the coupled rail a regulator-coupled-max-spread",
        BoardFault::SpreadsDiffer(_, _) => "give the two coupled rails one spread",
        BoardFault::CoupledSupplier(_, _) => "couple the rail with none of its supplies",
        BoardFault::GroupLoop(_) => "break the loop of supplies through the rail's group",
        BoardFault::GapOverSpread(_, _, _) =>
            "widen the rail's spread to the gap, the second number",
        BoardFault::GapOverStep(_, _, _) => "widen the rail's step to the gap, the second number",
        BoardFault::SuspendSpread(_, _) => "bring the two suspend values within the spread",
        BoardFault::LoadOverModes(_, _) =>
            "lower the rail's system load, or allow a mode that carries it",
        BoardFault::Memory => "give the program more memory",
    }
}
