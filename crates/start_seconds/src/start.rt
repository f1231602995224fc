// A start.
use move_model::List;

/// A place and a second at which a stop there has a start: a call there, which may be boarded and is not its trip's last,
/// departs at this second and the buffer.
#[derive(Clone, Copy, Debug, PartialEq, Eq, PartialOrd, Ord)]
pub struct Start {
    pub place: u32,
    pub second: u32,
}

/// Starts in the order in which they are searched from.
pub type Starts = List<Start>;
