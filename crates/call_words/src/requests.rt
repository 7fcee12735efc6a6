//! What the words of a call ask for. The names are parts of those words.

/// Two corners of a zone, as the words give them, in micrometres: from `(x0, y0)` to `(x1, y1)`. They
/// may lie outside the board and be in the wrong order.
#[derive(Clone, Copy)]
pub struct Corners {
    pub x0: u128,
    pub y0: u128,
    pub x1: u128,
    pub y1: u128,
}

/// A report on the state that replies leave.
#[derive(Clone, Copy)]
pub enum Report<'a> {
    /// Where a pour of the net may flow on the layer, within the corners.
    Fill {
        net: &'a str,
        layer: &'a str,
        corners: Corners,
    },
    /// The copper of the layer as a Gerber text.
    Gerber {
        layer: &'a str,
    },
    /// What is joined.
    Trace,
}

/// What is done in the session that the commands of a board text leave.
#[derive(Clone, Copy)]
pub enum Sequel<'a> {
    /// Routes the net through the others, of which there are from 1 to 64.
    Through { net: &'a str, others: &'a [String] },
    /// So many rounds of routing, from 1 to 100.
    Auto { rounds: u32 },
}

/// What the program is asked to do.
#[derive(Clone, Copy)]
pub enum Request<'a> {
    /// Read a board text and write the reply to each of its commands; `quiet` leaves the certificates
    /// out.
    Run { quiet: bool },
    /// Read a board text and the text of replies to its commands, and say whether they are right.
    Check,
    /// Read a board text and write its board and commands as a text of the second version.
    Upgrade,
    /// Write the generated board text of so many nets, from 1 to 2,000.
    Gen(u32),
    /// Write the replies to the commands of that text, and a summary of them.
    Demo(u32),
    /// Read a board text and the text of right replies to its commands, and write a report.
    Reporting(Report<'a>),
    /// Read a board text, write the replies to its commands, and go on in the session.
    Following(Sequel<'a>),
}
