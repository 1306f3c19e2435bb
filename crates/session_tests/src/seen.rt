//! Calls as lines of a table.
use board::State;
use rows::Call;

/// A call: its word, its handle or its state, and its rail or its numbers.
pub(crate) type Seen<'a> = (&'a str, &'a str, u32, u32);

fn state_word(state: State) -> &'static str {
    match state {
        State::Standby => "standby",
        State::Mem => "mem",
        State::Disk => "disk",
    }
}

pub(crate) fn seen(call: &Call) -> Seen<'_> {
    match call {
        Call::Open {
            handle,
            rail,
            exclusive,
        } => {
            let word = if *exclusive { "openx" } else { "open" };
            (word, handle.as_str(), u32::from(rail.0), 0)
        }
        Call::Close { handle } => ("close", handle.as_str(), 0, 0),
        Call::Enable { handle } => ("enable", handle.as_str(), 0, 0),
        Call::Disable { handle } => ("disable", handle.as_str(), 0, 0),
        Call::Set { handle, lo, hi } => ("set", handle.as_str(), *lo, *hi),
        Call::Load { handle, ua } => ("load", handle.as_str(), *ua, 0),
        Call::Get { handle } => ("get", handle.as_str(), 0, 0),
        Call::IsOn { handle } => ("ison", handle.as_str(), 0, 0),
        Call::ModeOf { handle } => ("mode", handle.as_str(), 0, 0),
        Call::ListSel { handle, sel } => ("list", handle.as_str(), *sel, 0),
        Call::Supported { handle, lo, hi } => ("supported", handle.as_str(), *lo, *hi),
        Call::Listen { handle } => ("listen", handle.as_str(), 0, 0),
        Call::Events { handle } => ("events", handle.as_str(), 0, 0),
        Call::Suspend { state } => ("suspend", state_word(*state), 0, 0),
        Call::Resume => ("resume", "", 0, 0),
        Call::ReleaseBoot => ("release-boot", "", 0, 0),
    }
}
