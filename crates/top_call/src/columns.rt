// The names of the required columns.
ghost use Rattle.std.specs.Prelude.{◌≡◌, ◌≤◌, length};
ghost use Rattle.top_call.specs.Status as spec;

use move_model::FileKind;

/// The name of a required column of a file, by its place in the order of the file's required columns, or no word
/// where the file has no such column.
#[tactic(auto, unfolding(crate::specs::Status::column_text))]
pub fn column_text(file: FileKind, place: u32) -> &'static [u8]
    ensures text { result.now ≡ spec.column_text file place }
    ensures short { length result.now ≤ 26 }
{
    match file {
        FileKind::Stops => match place {
            0 => b"stop_id",
            _ => b"",
        },
        FileKind::Calendar => match place {
            0 => b"service_id",
            1 => b"monday",
            2 => b"tuesday",
            3 => b"wednesday",
            4 => b"thursday",
            5 => b"friday",
            6 => b"saturday",
            7 => b"sunday",
            8 => b"start_date",
            9 => b"end_date",
            _ => b"",
        },
        FileKind::CalendarDates => match place {
            0 => b"service_id",
            1 => b"date",
            2 => b"exception_type",
            _ => b"",
        },
        FileKind::Trips => match place {
            0 => b"service_id",
            1 => b"trip_id",
            _ => b"",
        },
        FileKind::StopTimes => match place {
            0 => b"trip_id",
            1 => b"stop_id",
            2 => b"stop_sequence",
            _ => b"",
        },
        FileKind::Frequencies => match place {
            0 => b"trip_id",
            1 => b"start_time",
            2 => b"end_time",
            3 => b"headway_secs",
            _ => b"",
        },
        FileKind::StopNodes => match place {
            0 => b"stop_id",
            1 => b"node",
            _ => b"",
        },
        FileKind::Queries => match place {
            0 => b"kind",
            1 => b"from",
            2 => b"to",
            3 => b"first",
            4 => b"last",
            5 => b"trips",
            _ => b"",
        },
        FileKind::Gr | FileKind::Co | FileKind::Net => b"",
    }
}
