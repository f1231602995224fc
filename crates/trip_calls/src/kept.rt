// Calls as their rows give them.
use move_model::StopNo;

/// The times of a call. Seconds count from the start of the service day.
#[derive(Clone, Copy, Debug, PartialEq, Eq)]
pub struct Times {
    pub arr: u32,
    pub dep: u32,
}

/// A row of `stop_times.txt`: a call at a stop, with its `stop_sequence` and its row in the file, from 1. One given
/// time stands for both; a call may have none.
#[derive(Clone, Copy, Debug, PartialEq, Eq)]
pub struct KeptCall {
    pub sequence: u32,
    pub row: u32,
    pub stop: StopNo,
    pub times: Option<Times>,
    pub board: bool,
    pub alight: bool,
}
