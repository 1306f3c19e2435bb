use board::{Event, RailId};
use item_list::Items;
use load_modes::Mode;

/// What a call is answered. Values are µV, loads µA, delays µs.
#[derive(Drop)]
pub enum Answer {
    Ok,
    /// The rails that were switched on are up after `delay`.
    OkTime {
        delay: u64,
    },
    /// The rail stands at `uv` after `delay`.
    OkSet {
        uv: u32,
        delay: u64,
    },
    OkMode {
        mode: Mode,
    },
    OkUv {
        uv: u32,
    },
    OkOn {
        on: bool,
    },
    /// The value of a selector, where the rail may stand at it.
    OkList {
        uv: Option<u32>,
    },
    OkYes {
        yes: bool,
    },
    /// What the rail did, the oldest first.
    OkEvents {
        list: Items<Event>,
    },
    /// The least value asked for is above the greatest.
    BadRange {
        lo: u32,
        hi: u32,
    },
    /// No values that the rails may stand at meet all requests.
    NoValue,
    /// The handle has so many enables, which are none.
    Unbalanced {
        enables: u32,
    },
    /// The handle has so many enables, and can't have more.
    CountFull {
        enables: u32,
    },
    /// The handle still has enables.
    StillEnabled {
        enables: u32,
    },
    /// The rail has so many handles, and one of them, or the new one, is to be alone.
    Taken {
        handles: u32,
    },
    /// The worker has an open handle of this name.
    HandleOpen,
    /// The worker has so many open handles, and can't have more.
    HandlesFull {
        handles: u32,
    },
    /// The worker has no open handle of this name.
    NoHandle,
    /// Loads don't choose the rail's mode.
    NotAllowed,
    /// No mode that the rail may be in carries so much.
    NoMode {
        sum: u64,
    },
    /// The handle doesn't listen.
    NotListening,
    Suspended,
    NotSuspended,
    /// The bus refused an update of this register after `applied` that it took;
    /// `now` has each rail whose value changed, with its value.
    Fault {
        chip: u8,
        reg: u8,
        applied: u32,
        now: Items<(RailId, u32)>,
    },
}
