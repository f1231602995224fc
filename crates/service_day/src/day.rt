// Days of the calendar, as numbers of the form YYYYMMDD.
ghost use Rattle.std.specs.Prelude.{◌≡◌, ◌<◌, ◌↔◌, pos, IfSome, IsNone};
ghost use Rattle.jiff.specs.Words.{IsYmd};
ghost use Rattle.service_day.specs.Day.{IsDay, IsDayBefore, first_day, year_of, month_of, date_of, weekday_of};

use jiff::civil::{Date, date};

/// 1 January of the year 0.
const FIRST_DAY: u32 = 101;

fn civil_date(day: u32) -> Date
    requires { IsDay day }
    ensures { IsYmd (pos (year_of day)) (pos (month_of day)) (pos (date_of day)) result }
{
    date(
        (day / 10_000) as i16,
        (day / 100 % 100) as i8,
        (day % 100) as i8,
    )
}

// The weekday, from 0 for Monday.
pub(crate) fn weekday(day: u32) -> usize
    requires { IsDay day }
    ensures value { result ≡ weekday_of day }
    ensures bound { result < 7 }
{
    usize::from(civil_date(day).weekday().index())
}

// The day before, or None for the first day of the year 0.
pub(crate) fn day_before(day: u32) -> Option<u32>
    requires { IsDay day }
    ensures first { IsNone result ↔ (day ≡ first_day) }
    ensures value { IfSome result (λ before. IsDayBefore before day) }
{
    if day == FIRST_DAY {
        return None;
    }
    let Ok(before) = civil_date(day).yesterday() else {
        return None;
    };
    if before.year() < 0 {
        return None;
    }
    let year = before.year() as u32;
    let month = before.month() as u32;
    Some(year * 10_000 + month * 100 + before.day() as u32)
}
