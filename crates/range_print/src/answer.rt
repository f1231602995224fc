// What is printed of a range.
use move_model::{Finding, Place, SpanFindings};

/// The answer to a range query, whose window has the seconds of the service day from `first` to `last`: the walk on foot,
/// where there is one, with its arrival for who leaves at the first of them, and the spans by rising first second and then
/// number of trips.
#[derive(Debug, Drop)]
pub struct RangeAnswer {
    pub from: Place,
    pub to: Place,
    pub first: u32,
    pub last: u32,
    pub foot: Option<Finding>,
    pub spans: SpanFindings,
}
