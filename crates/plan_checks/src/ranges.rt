// Plans of ranges of departures, whose rows were worked by hand.
use crate::cases::Case;
use crate::rows::expect_in_memory;
use crate::sample::PLAN;
use std::test::Fail;

// From vertex 1 to vertex 4 within two hours, with at most two trips.
const WITHIN: &[u8] = b"range,node:1,node:4,07:00:00,09:00:00,2";

const RANGES: [Case; 6] = [
    // The sample: a walk on foot, and a span that ends when the first trip departs.
    (
        PLAN,
        &[],
        WITHIN,
        b"1,1,foot,7200,node:1,1,node:4,4,07:00:00,09:00:00,\n1,1,walk,,,1,,4,07:00:00,09:00:00,\n1,2,span,2,node:1,1,node:4,4,07:00:00,08:00:00,08:30:00\n1,2,ride,t1,A,1,B,2,08:00:00,08:10:00,\n1,2,walk,,,2,,3,08:10:00,08:14:00,\n1,2,ride,t2,C,3,D,4,08:15:00,08:30:00,\n",
    ),
    // A walk that arrives with the trips.
    (
        PLAN,
        &[(
            "base.gr",
            b"p sp 4 4\na 2 3 240\na 3 2 240\na 1 4 1800\na 4 1 1800\n",
        )],
        WITHIN,
        b"1,1,foot,1800,node:1,1,node:4,4,07:00:00,09:00:00,\n1,1,walk,,,1,,4,07:00:00,07:30:00,\n",
    ),
    // A walk that arrives before the trips until 07:40:00.
    (
        PLAN,
        &[(
            "base.gr",
            b"p sp 4 4\na 2 3 240\na 3 2 240\na 1 4 3000\na 4 1 3000\n",
        )],
        WITHIN,
        b"1,1,foot,3000,node:1,1,node:4,4,07:00:00,09:00:00,\n1,1,walk,,,1,,4,07:00:00,07:50:00,\n1,2,span,2,node:1,1,node:4,4,07:40:01,08:00:00,08:30:00\n1,2,ride,t1,A,1,B,2,08:00:00,08:10:00,\n1,2,walk,,,2,,3,08:10:00,08:14:00,\n1,2,ride,t2,C,3,D,4,08:15:00,08:30:00,\n",
    ),
    // A window of one second.
    (
        PLAN,
        &[],
        b"range,node:1,node:4,08:00:00,08:00:00,2",
        b"1,1,foot,7200,node:1,1,node:4,4,08:00:00,08:00:00,\n1,1,walk,,,1,,4,08:00:00,10:00:00,\n1,2,span,2,node:1,1,node:4,4,08:00:00,08:00:00,08:30:00\n1,2,ride,t1,A,1,B,2,08:00:00,08:10:00,\n1,2,walk,,,2,,3,08:10:00,08:14:00,\n1,2,ride,t2,C,3,D,4,08:15:00,08:30:00,\n",
    ),
    // A window without a journey, before a query at one second.
    (
        PLAN,
        &[],
        b"range,stop:B,stop:A,08:12:00,08:20:00,2\nat,node:1,node:4,08:00:01,,2",
        b"1,0,none,,stop:B,2,stop:A,1,08:12:00,08:20:00,\n2,1,pair,0,node:1,1,node:4,4,08:00:01,,10:00:01\n2,1,walk,,,1,,4,08:00:01,10:00:01,\n",
    ),
    // Copies of a trip every ten minutes, so more departures than go into one round.
    (
        PLAN,
        &[
            ("base/trips.txt", b"service_id,trip_id\nw,f\n"),
            (
                "base/stop_times.txt",
                b"trip_id,arrival_time,departure_time,stop_id,stop_sequence\nf,06:00:00,06:00:00,A,1\nf,06:10:00,06:10:00,B,2\n",
            ),
            (
                "base/frequencies.txt",
                b"trip_id,start_time,end_time,headway_secs\nf,08:00:00,09:20:00,600\n",
            ),
        ],
        b"range,node:1,node:2,07:30:00,09:30:00,1",
        b"1,1,span,1,node:1,1,node:2,2,07:30:00,08:00:00,08:10:00\n1,1,ride,f,A,1,B,2,08:00:00,08:10:00,\n1,2,span,1,node:1,1,node:2,2,08:00:01,08:10:00,08:20:00\n1,2,ride,f,A,1,B,2,08:10:00,08:20:00,\n1,3,span,1,node:1,1,node:2,2,08:10:01,08:20:00,08:30:00\n1,3,ride,f,A,1,B,2,08:20:00,08:30:00,\n1,4,span,1,node:1,1,node:2,2,08:20:01,08:30:00,08:40:00\n1,4,ride,f,A,1,B,2,08:30:00,08:40:00,\n1,5,span,1,node:1,1,node:2,2,08:30:01,08:40:00,08:50:00\n1,5,ride,f,A,1,B,2,08:40:00,08:50:00,\n1,6,span,1,node:1,1,node:2,2,08:40:01,08:50:00,09:00:00\n1,6,ride,f,A,1,B,2,08:50:00,09:00:00,\n1,7,span,1,node:1,1,node:2,2,08:50:01,09:00:00,09:10:00\n1,7,ride,f,A,1,B,2,09:00:00,09:10:00,\n1,8,span,1,node:1,1,node:2,2,09:00:01,09:10:00,09:20:00\n1,8,ride,f,A,1,B,2,09:10:00,09:20:00,\n",
    ),
];

#[test]
fn answers_over_ranges(rt: HostRuntime) -> Result<(), Fail> {
    for case in &RANGES {
        expect_in_memory(&rt, rt.alloc(), case)?;
    }
    Ok(())
}
