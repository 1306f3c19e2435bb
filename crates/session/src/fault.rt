use board_draft::BoardFault;

/// Why a session is refused, and the line of its text where that shows, from 1; 0 where no line does.
#[derive(Clone, Copy, Debug)]
pub struct SessionFault {
    pub line: u32,
    pub kind: SessionKind,
}

/// Why a session is refused. Places are bytes of the board's text, from 0, and rails are told by their numbers.
#[derive(Clone, Copy, Debug)]
pub enum SessionKind {
    /// The text has more than 4,194,304 bytes.
    TooLong,
    /// The line isn't the next line of any session.
    BadSession,
    /// The line, or the board, has a form that isn't built yet.
    NotYet,
    /// The line begins a 17th worker.
    TooManyWorkers,
    /// The worker has more than 4,096 lines.
    TooManyLines,
    /// At this byte no token of devicetree source stands.
    BadChar(u32),
    /// The string or comment that begins at this byte has no end.
    Unclosed(u32),
    /// The number at this byte is above 4,294,967,295.
    NumberTooWide(u32),
    /// What stands at this byte can't follow what stands before it, or something is wanted at the end.
    Syntax(u32),
    /// No node has the label at this byte.
    NoLabel(u32),
    /// Another node has the label at this byte.
    TwoLabels(u32),
    /// What stands at this byte is of devicetree source, and isn't read here.
    NotSupported(u32),
    /// The node whose name stands at this byte is more than 32 levels below the root.
    TooDeep(u32),
    /// The tree makes no board.
    Board(BoardFault),
    /// The line names a chip that isn't on the board.
    BadReg,
    /// No values of what moves with this rail keep spreads and dropouts.
    NoVector(u16),
    /// No memory was left.
    Memory,
}
