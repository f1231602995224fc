// Why an input is refused.

/// The files that the program reads.
#[derive(Clone, Copy, Debug, PartialEq, Eq)]
pub enum FileKind {
    Stops,
    Calendar,
    CalendarDates,
    Trips,
    StopTimes,
    Frequencies,
    StopNodes,
    Gr,
    Co,
    Queries,
    Net,
}

/// The rule that is broken, with the number that its line on the error stream tells.
#[derive(Clone, Copy, Debug, PartialEq, Eq)]
pub enum Cause {
    /// The file has at least this many bytes, one more than its limit.
    FileLong(u64),
    /// The required column at this place of the file's required columns, from 0, is missing.
    NoColumn(u32),
    /// A counted number is above its limit.
    Limit(u64),
    NotUtf8,
    IdEmpty,
    /// An id of so many bytes.
    IdLong(u64),
    Repeated,
    Number,
    Coordinate,
    Date,
    Time,
    UnknownTrip,
    UnknownStop,
    NotAStop,
    NoTime,
    TimeFalls,
    /// The last second of a copy of a trip.
    CopyLate(u64),
    NoCalendar,
    NoPlace,
    Line,
    /// A number that is no vertex.
    Vertex(u64),
    /// The seconds of an arc.
    Weight(u64),
    /// A count that differs from the one that the file or the graph has.
    Count(u64),
    Kind,
    Place,
    /// The seconds of a window, or 0 where it ends before it begins.
    Window(u64),
    /// A form of input that is not answered yet.
    Unbuilt,
}

/// The file, its row and the cause. Row 0 means the whole file or its header.
#[derive(Clone, Copy, Debug, PartialEq, Eq)]
pub struct Refusal {
    pub file: FileKind,
    pub row: u32,
    pub cause: Cause,
}

/// Why an input was not read.
#[derive(Clone, Copy, Debug, PartialEq, Eq)]
pub enum Stopped {
    Refused(Refusal),
    NoMemory,
}
