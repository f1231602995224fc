//! Reads the files of a feed of the GTFS Schedule Reference: `stops.txt`, `calendar.txt`,
//! `calendar_dates.txt`, `trips.txt`, `stop_times.txt` and `frequencies.txt`.
#![tactic(auto)]

mod calls;
mod copies;
mod feed;
mod file_rows;
mod ids;
mod read;
mod refuse;
mod services;
mod stops;
mod trips;

pub use feed::{
    CopyRow, CopyRows, Dates, Feed, FeedBytes, FeedStop, FeedStops, FeedTrip, FeedTrips, Service,
    Services,
};
pub use read::read_feed;
