use board::{Handle, RailId, State};

/// What a worker asks of its board. Values are µV, loads µA.
#[derive(Clone, Copy)]
pub enum Call {
    /// Opens a handle on a rail; an exclusive one is alone on it.
    Open {
        handle: Handle,
        rail: RailId,
        exclusive: bool,
    },
    /// Takes the handle away.
    Close {
        handle: Handle,
    },
    /// Asks once more that the rail of the handle is on.
    Enable {
        handle: Handle,
    },
    /// Gives one of these up.
    Disable {
        handle: Handle,
    },
    /// Asks that the rail of the handle stands within `lo..=hi`.
    Set {
        handle: Handle,
        lo: u32,
        hi: u32,
    },
    /// Tells what the consumer draws while it has the rail enabled.
    Load {
        handle: Handle,
        ua: u32,
    },
    /// Asks where the rail of the handle stands.
    Get {
        handle: Handle,
    },
    /// Asks whether it is on.
    IsOn {
        handle: Handle,
    },
    /// Asks in which mode it is.
    ModeOf {
        handle: Handle,
    },
    /// Asks which value a selector has, where the rail may stand at it.
    ListSel {
        handle: Handle,
        sel: u32,
    },
    /// Asks whether the rail may stand at a value within `lo..=hi`.
    Supported {
        handle: Handle,
        lo: u32,
        hi: u32,
    },
    /// Asks to be told of what the rail does from now on.
    Listen {
        handle: Handle,
    },
    /// Asks what it did since.
    Events {
        handle: Handle,
    },
    /// Suspends the board.
    Suspend {
        state: State,
    },
    /// Ends its suspension.
    Resume,
    /// Ends what holds rails on since the start.
    ReleaseBoot,
}

impl Call {
    ghost use Rattle.std.specs.Prelude.{◌≡◌};
    ghost use Rattle.rows.specs.Reading.{opens};

    /// The same call.
    pub fn copy(&self) -> Call
        ensures { result ≡ self.now }
    {
        *self
    }

    /// Whether it opens a handle.
    pub(crate) fn opens(&self) -> bool
        ensures { result ≡ opens self.now }
    {
        matches!(self, Call::Open { .. })
    }
}
