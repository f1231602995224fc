// Plans whose rows were worked by hand.
use crate::sample::{File, PLAN};

/// Words, files in place of some of the sample's, the one query, and the rows behind the header.
pub type Case = (&'static str, &'static [File], &'static [u8], &'static [u8]);

// From vertex 1 to vertex 4 with at most two trips.
const ACROSS: &[u8] = b"at,node:1,node:4,07:55:00,,2";

const ON_FOOT: &[u8] =
    b"1,1,pair,0,node:1,1,node:4,4,07:55:00,,09:55:00\n1,1,walk,,,1,,4,07:55:00,09:55:00,\n";

const SAMPLE: &[u8] =
    b"1,1,pair,0,node:1,1,node:4,4,07:55:00,,09:55:00\n1,1,walk,,,1,,4,07:55:00,09:55:00,\n1,2,pair,2,node:1,1,node:4,4,07:55:00,,08:30:00\n1,2,ride,t1,A,1,B,2,08:00:00,08:10:00,\n1,2,walk,,,2,,3,08:10:00,08:14:00,\n1,2,ride,t2,C,3,D,4,08:15:00,08:30:00,\n";

/// Streets and trips.
pub const STREETS: [Case; 12] = [
    // The sample.
    (PLAN, &[], ACROSS, SAMPLE),
    // One trip at most.
    (PLAN, &[], b"at,node:1,node:4,07:55:00,,1", ON_FOOT),
    // A walk that ends when the trip departs.
    (
        PLAN,
        &[(
            "base.gr",
            b"p sp 4 4\na 2 3 300\na 3 2 300\na 1 4 7200\na 4 1 7200\n",
        )],
        ACROSS,
        b"1,1,pair,0,node:1,1,node:4,4,07:55:00,,09:55:00\n1,1,walk,,,1,,4,07:55:00,09:55:00,\n1,2,pair,2,node:1,1,node:4,4,07:55:00,,08:30:00\n1,2,ride,t1,A,1,B,2,08:00:00,08:10:00,\n1,2,walk,,,2,,3,08:10:00,08:15:00,\n1,2,ride,t2,C,3,D,4,08:15:00,08:30:00,\n",
    ),
    // A walk of one second too many.
    (
        PLAN,
        &[(
            "base.gr",
            b"p sp 4 4\na 2 3 301\na 3 2 301\na 1 4 7200\na 4 1 7200\n",
        )],
        ACROSS,
        ON_FOOT,
    ),
    // From a vertex to itself.
    (
        PLAN,
        &[],
        b"at,node:1,node:1,07:55:00,,2",
        b"1,1,pair,0,node:1,1,node:1,1,07:55:00,,07:55:00\n",
    ),
    // No journey.
    (
        PLAN,
        &[],
        b"at,stop:B,stop:A,08:12:00,,2",
        b"1,0,none,,stop:B,2,stop:A,1,08:12:00,,\n",
    ),
    // A trip caught exactly.
    (
        PLAN,
        &[],
        b"at,stop:B,stop:A,08:11:00,,2",
        b"1,1,pair,1,stop:B,2,stop:A,1,08:11:00,,10:30:00\n1,1,walk,,,2,,3,08:11:00,08:15:00,\n1,1,ride,t2,C,3,D,4,08:15:00,08:30:00,\n1,1,walk,,,4,,1,08:30:00,10:30:00,\n",
    ),
    // A trip missed by a second.
    (
        PLAN,
        &[],
        b"at,node:1,node:4,08:00:01,,2",
        b"1,1,pair,0,node:1,1,node:4,4,08:00:01,,10:00:01\n1,1,walk,,,1,,4,08:00:01,10:00:01,\n",
    ),
    // Two stops at one vertex.
    (
        PLAN,
        &[("base/stop_nodes.txt", b"stop_id,node\nA,1\nB,2\nC,2\nD,4\n")],
        ACROSS,
        b"1,1,pair,0,node:1,1,node:4,4,07:55:00,,09:55:00\n1,1,walk,,,1,,4,07:55:00,09:55:00,\n1,2,pair,2,node:1,1,node:4,4,07:55:00,,08:30:00\n1,2,ride,t1,A,1,B,2,08:00:00,08:10:00,\n1,2,ride,t2,C,2,D,4,08:15:00,08:30:00,\n",
    ),
    // An overtaking trip.
    (
        PLAN,
        &[
            ("base/trips.txt", b"service_id,trip_id\nw,t1\nw,t2\nw,t3\n"),
            (
                "base/stop_times.txt",
                b"trip_id,arrival_time,departure_time,stop_id,stop_sequence\nt1,08:00:00,08:00:00,A,1\nt1,08:10:00,08:10:00,B,2\nt2,08:15:00,08:15:00,C,1\nt2,08:30:00,08:30:00,D,2\nt3,08:01:00,08:01:00,A,1\nt3,08:09:00,08:09:00,B,2\n",
            ),
            (
                "base.gr",
                b"p sp 4 4\na 2 3 360\na 3 2 360\na 1 4 7200\na 4 1 7200\n",
            ),
        ],
        ACROSS,
        b"1,1,pair,0,node:1,1,node:4,4,07:55:00,,09:55:00\n1,1,walk,,,1,,4,07:55:00,09:55:00,\n1,2,pair,2,node:1,1,node:4,4,07:55:00,,08:30:00\n1,2,ride,t3,A,1,B,2,08:01:00,08:09:00,\n1,2,walk,,,2,,3,08:09:00,08:15:00,\n1,2,ride,t2,C,3,D,4,08:15:00,08:30:00,\n",
    ),
    // A trip without a change.
    (
        PLAN,
        &[
            ("base/trips.txt", b"service_id,trip_id\nw,t1\nw,t2\nw,t4\n"),
            (
                "base/stop_times.txt",
                b"trip_id,arrival_time,departure_time,stop_id,stop_sequence\nt1,08:00:00,08:00:00,A,1\nt1,08:10:00,08:10:00,B,2\nt2,08:15:00,08:15:00,C,1\nt2,08:30:00,08:30:00,D,2\nt4,08:05:00,08:05:00,A,1\nt4,08:30:00,08:30:00,D,2\n",
            ),
        ],
        ACROSS,
        b"1,1,pair,0,node:1,1,node:4,4,07:55:00,,09:55:00\n1,1,walk,,,1,,4,07:55:00,09:55:00,\n1,2,pair,1,node:1,1,node:4,4,07:55:00,,08:30:00\n1,2,ride,t4,A,1,D,4,08:05:00,08:30:00,\n",
    ),
    // The least of two arcs with the same ends.
    (
        PLAN,
        &[("base.gr", b"p sp 4 3\na 1 2 100\na 1 2 60\na 2 4 40\n")],
        ACROSS,
        b"1,1,pair,0,node:1,1,node:4,4,07:55:00,,07:56:40\n1,1,walk,,,1,,2,07:55:00,07:56:00,\n1,1,walk,,,2,,4,07:56:00,07:56:40,\n",
    ),
];

/// Feeds.
pub const FEEDS: [Case; 9] = [
    // Marks, carriage returns, quotes, another order, times left out.
    (
        PLAN,
        &[
            ("base/trips.txt", b"service_id,trip_id\nw,t9\n"),
            (
                "base/stop_times.txt",
                b"\xEF\xBB\xBFstop_sequence,\"trip_id\",stop_id,departure_time,arrival_time\r\n10,\"t9\",A,24:50:00,\r\n20,t9,B,,\r\n30,t9,C,,\r\n40,t9,D,,25:10:00\r\n",
            ),
        ],
        b"at,node:1,node:3,24:45:00,,1",
        b"1,1,pair,1,node:1,1,node:3,3,24:45:00,,25:00:40\n1,1,ride,t9,A,1,B,2,24:50:00,24:56:40,\n1,1,walk,,,2,,3,24:56:40,25:00:40,\n",
    ),
    // An added date.
    (
        PLAN,
        &[(
            "base/calendar.txt",
            b"service_id,monday,tuesday,wednesday,thursday,friday,saturday,sunday,start_date,end_date\nw,0,0,0,0,0,0,0,20250101,20251231\n",
        )],
        ACROSS,
        SAMPLE,
    ),
    // A removed date.
    (
        PLAN,
        &[
            (
                "base/calendar.txt",
                b"service_id,monday,tuesday,wednesday,thursday,friday,saturday,sunday,start_date,end_date\nw,1,0,0,0,0,0,0,20250101,20251231\n",
            ),
            (
                "base/calendar_dates.txt",
                b"service_id,date,exception_type\nw,20250303,2\n",
            ),
        ],
        ACROSS,
        ON_FOOT,
    ),
    // No trips at all.
    (
        PLAN,
        &[
            ("base/stops.txt", b"stop_id\n"),
            (
                "base/calendar_dates.txt",
                b"service_id,date,exception_type\n",
            ),
            ("base/trips.txt", b"service_id,trip_id\n"),
            (
                "base/stop_times.txt",
                b"trip_id,arrival_time,departure_time,stop_id,stop_sequence\n",
            ),
            ("base/stop_nodes.txt", b"stop_id,node\n"),
        ],
        ACROSS,
        ON_FOOT,
    ),
    // The second copy of a trip.
    (
        PLAN,
        &[
            ("base/trips.txt", b"service_id,trip_id\nw,f\n"),
            (
                "base/stop_times.txt",
                b"trip_id,arrival_time,departure_time,stop_id,stop_sequence\nf,06:00:00,06:00:00,A,1\nf,06:10:00,06:10:00,B,2\n",
            ),
            (
                "base/frequencies.txt",
                b"trip_id,start_time,end_time,headway_secs\nf,08:00:00,08:30:00,900\n",
            ),
        ],
        b"at,node:1,node:2,08:00:01,,1",
        b"1,1,pair,1,node:1,1,node:2,2,08:00:01,,08:25:00\n1,1,ride,f,A,1,B,2,08:15:00,08:25:00,\n",
    ),
    // No copy at the end.
    (
        PLAN,
        &[
            ("base/trips.txt", b"service_id,trip_id\nw,f\n"),
            (
                "base/stop_times.txt",
                b"trip_id,arrival_time,departure_time,stop_id,stop_sequence\nf,06:00:00,06:00:00,A,1\nf,06:10:00,06:10:00,B,2\n",
            ),
            (
                "base/frequencies.txt",
                b"trip_id,start_time,end_time,headway_secs\nf,08:00:00,08:30:00,900\n",
            ),
        ],
        b"at,node:1,node:2,08:15:01,,1",
        b"1,0,none,,node:1,1,node:2,2,08:15:01,,\n",
    ),
    // A trip of the day before.
    (
        PLAN,
        &[
            (
                "base/calendar_dates.txt",
                b"service_id,date,exception_type\nw,20250302,1\n",
            ),
            ("base/trips.txt", b"service_id,trip_id\nw,t9\n"),
            (
                "base/stop_times.txt",
                b"trip_id,arrival_time,departure_time,stop_id,stop_sequence\nt9,,24:50:00,A,10\nt9,,,B,20\nt9,,,C,30\nt9,25:10:00,,D,40\n",
            ),
        ],
        b"at,node:1,node:3,00:45:00,,1",
        b"1,1,pair,1,node:1,1,node:3,3,00:45:00,,01:00:40\n1,1,ride,t9,A,1,B,2,00:50:00,00:56:40,\n1,1,walk,,,2,,3,00:56:40,01:00:40,\n",
    ),
    // A call that stands over midnight.
    (
        PLAN,
        &[
            (
                "base/calendar_dates.txt",
                b"service_id,date,exception_type\nw,20250302,1\n",
            ),
            ("base/trips.txt", b"service_id,trip_id\nw,n\n"),
            (
                "base/stop_times.txt",
                b"trip_id,arrival_time,departure_time,stop_id,stop_sequence\nn,23:50:00,23:50:00,A,1\nn,23:59:00,24:01:00,B,2\nn,24:10:00,24:10:00,D,3\n",
            ),
        ],
        b"at,node:2,node:4,00:00:30,,1",
        b"1,1,pair,1,node:2,2,node:4,4,00:00:30,,00:10:00\n1,1,ride,n,B,2,D,4,00:01:00,00:10:00,\n",
    ),
    // A trip of the day before, in quotes, behind a mark and with carriage returns.
    (
        PLAN,
        &[
            (
                "base/calendar_dates.txt",
                b"service_id,date,exception_type\nw,20250302,1\n",
            ),
            ("base/trips.txt", b"service_id,trip_id\nw,t9\n"),
            (
                "base/stop_times.txt",
                b"\xEF\xBB\xBFstop_sequence,\"trip_id\",stop_id,departure_time,arrival_time\r\n10,\"t9\",A,24:50:00,\r\n20,t9,B,,\r\n30,t9,C,,\r\n40,t9,D,,25:10:00\r\n",
            ),
        ],
        b"at,node:1,node:3,00:45:00,,1",
        b"1,1,pair,1,node:1,1,node:3,3,00:45:00,,01:00:40\n1,1,ride,t9,A,1,B,2,00:50:00,00:56:40,\n1,1,walk,,,2,,3,00:56:40,01:00:40,\n",
    ),
];

/// Buffers.
pub const BUFFERS: [Case; 5] = [
    // The same with a buffer that is too long.
    (
        "plan base base.gr - 20250303 1000 q.csv 31",
        &[
            (
                "base/calendar_dates.txt",
                b"service_id,date,exception_type\nw,20250302,1\n",
            ),
            ("base/trips.txt", b"service_id,trip_id\nw,n\n"),
            (
                "base/stop_times.txt",
                b"trip_id,arrival_time,departure_time,stop_id,stop_sequence\nn,23:50:00,23:50:00,A,1\nn,23:59:00,24:01:00,B,2\nn,24:10:00,24:10:00,D,3\n",
            ),
        ],
        b"at,node:2,node:4,00:00:30,,1",
        b"1,0,none,,node:2,2,node:4,4,00:00:30,,\n",
    ),
    // A buffer that is just kept.
    (
        "plan base base.gr - 20250303 1000 q.csv 60",
        &[],
        ACROSS,
        SAMPLE,
    ),
    // A buffer of one second more.
    (
        "plan base base.gr - 20250303 1000 q.csv 61",
        &[],
        ACROSS,
        ON_FOOT,
    ),
    // The longest buffer, just kept.
    (
        "plan base base.gr - 20250303 1000 q.csv 3600",
        &[],
        b"at,node:1,node:2,07:00:00,,1",
        b"1,1,pair,1,node:1,1,node:2,2,07:00:00,,08:10:00\n1,1,ride,t1,A,1,B,2,08:00:00,08:10:00,\n",
    ),
    // The longest buffer, missed by a second.
    (
        "plan base base.gr - 20250303 1000 q.csv 3600",
        &[],
        b"at,node:1,node:2,07:00:01,,1",
        b"1,0,none,,node:1,1,node:2,2,07:00:01,,\n",
    ),
];

/// A feed of an agency, whose stops are placed by their coordinates.
pub const AGENCY: [Case; 2] = [
    // A feed of an agency.
    (
        "plan hel hel.gr hel.co 20250303 500 q.csv",
        &[
            ("hel/agency.txt", b"agency_name\nHel\n"),
            (
                "hel/stops.txt",
                b"stop_id,stop_code,stop_name,stop_lat,stop_lon,location_type,parent_station\nS1,,Central,60.170000,24.940000,1,\nP1,001,Central platform 1,60.170100,24.940200,0,S1\nP2,002,Harbour,60.160500,24.955000,,\n",
            ),
            (
                "hel/calendar.txt",
                b"service_id,monday,tuesday,wednesday,thursday,friday,saturday,sunday,start_date,end_date\nWK,1,1,1,1,1,0,0,20250101,20251231\n",
            ),
            (
                "hel/calendar_dates.txt",
                b"service_id,date,exception_type\n",
            ),
            (
                "hel/frequencies.txt",
                b"trip_id,start_time,end_time,headway_secs\n",
            ),
            (
                "hel/trips.txt",
                b"route_id,service_id,trip_id,trip_headsign,direction_id\n10,WK,10_0700,Harbour,0\n10,WK,10_0715,Harbour,0\n",
            ),
            (
                "hel/stop_times.txt",
                b"trip_id,arrival_time,departure_time,stop_id,stop_sequence,pickup_type,drop_off_type\n10_0700,7:00:00,7:00:00,P1,1,0,1\n10_0700,7:06:00,7:06:00,P2,2,1,0\n10_0715,7:15:00,7:15:00,P1,1,0,1\n10_0715,7:21:00,7:21:00,P2,2,1,0\n",
            ),
            (
                "hel.gr",
                b"p sp 3 4\na 1 3 500\na 3 1 500\na 3 2 600\na 2 3 600\n",
            ),
            (
                "hel.co",
                b"p aux sp co 3\nv 1 24940000 60170000\nv 2 24955000 60160000\nv 3 24947000 60165000\n",
            ),
        ],
        b"at,stop:P1,node:2,07:05:00,,4",
        b"1,1,pair,0,stop:P1,1,node:2,2,07:05:00,,07:23:20\n1,1,walk,,,1,,3,07:05:00,07:13:20,\n1,1,walk,,,3,,2,07:13:20,07:23:20,\n1,2,pair,1,stop:P1,1,node:2,2,07:05:00,,07:21:00\n1,2,ride,10_0715,P1,1,P2,2,07:15:00,07:21:00,\n",
    ),
    // The feed of samples/agency.
    (
        "plan hel hel.gr hel.co 20250501 500 q.csv",
        &[
            (
                "hel/agency.txt",
                b"agency_id,agency_name,agency_url,agency_timezone\r\n1,\"Harbour Lines, Ltd.\",https://example.org,Europe/Helsinki\r\n",
            ),
            (
                "hel/stops.txt",
                b"\xef\xbb\xbfstop_id,stop_code,stop_name,stop_lat,stop_lon,location_type,parent_station\r\nS1,,Central,60.170000,24.940000,1,\r\nP1,001,\"Central, platform 1\",60.170100,24.940200,0,S1\r\nP2,002,\"Central, platform 2\",60.169900,24.939800,0,S1\r\nE1,,\"Central, \"\"north\"\" door\",60.170200,24.940000,2,S1\r\nMK,003,Market,60.165100,24.947100,,\r\nHB,004,\"Harbour, pier 2\",60.160500,24.955000,,\r\nHL,005,Hill,,,,\r\nIS,006,Island,60.150200,24.970000,0,\r\n",
            ),
            (
                "hel/calendar.txt",
                b"service_id,monday,tuesday,wednesday,thursday,friday,saturday,sunday,start_date,end_date\r\nWK,1,1,1,1,1,0,0,20250101,20251231\r\nSU,0,0,0,0,0,0,1,20250101,20251231\r\n",
            ),
            (
                "hel/calendar_dates.txt",
                b"service_id,date,exception_type\r\nWK,20250501,2\r\nSU,20250501,1\r\nNIGHT,20250430,1\r\n",
            ),
            (
                "hel/trips.txt",
                b"\xef\xbb\xbfroute_id,service_id,trip_id,trip_headsign,direction_id\r\n10,WK,10_0700,\"Harbour, pier 2\",0\r\n10,SU,10_0815,\"Harbour, pier 2\",0\r\n4,SU,4_A,Central,0\r\nF,SU,F_0900,\"Harbour, pier 2\",0\r\nN1,NIGHT,N1_2340,Hill,1\r\n99,OLD,99_0800,Museum,0\r\n",
            ),
            (
                "hel/stop_times.txt",
                b"trip_id,arrival_time,departure_time,stop_id,stop_sequence,stop_headsign,pickup_type,drop_off_type,timepoint\r\n10_0700,7:00:00,7:00:00,P1,1,,0,1,1\r\n10_0700,7:12:00,7:12:00,HB,2,,1,0,1\r\n10_0815,,8:15:00,P1,10,,0,1,1\r\n10_0815,,,MK,20,\"via Market\",,,0\r\n10_0815,8:27:00,,HB,30,,1,0,1\r\n4_A,00:00:00,00:00:00,HL,1,,0,1,1\r\n4_A,00:08:00,00:08:00,P2,2,,1,0,1\r\nF_0900,9:00:00,9:00:00,IS,1,,,,1\r\nF_0900,9:20:00,9:20:00,HB,2,,,,1\r\nN1_2340,23:40:00,23:40:00,HB,1,,,,1\r\nN1_2340,24:05:00,24:06:00,P1,2,,,,1\r\nN1_2340,24:16:00,24:16:00,HL,3,,,,1\r\n99_0800,8:00:00,8:00:00,HL,1,,,,1\r\n99_0800,8:01:00,8:01:00,HB,2,,,,1\r\n",
            ),
            (
                "hel/frequencies.txt",
                b"trip_id,start_time,end_time,headway_secs,exact_times\r\n4_A,08:05:00,09:05:00,900,0\r\n",
            ),
            ("hel/stop_nodes.txt", b"stop_id,node\r\nHL,4\r\n"),
            (
                "hel.gr",
                b"c Both ways of each street, in seconds of walking.\np sp 5 6\na 1 3 500\na 3 1 500\na 3 2 600\na 2 3 600\na 1 4 1500\na 4 1 1500\n",
            ),
            (
                "hel.co",
                b"c Longitude and latitude in millionths of a degree.\np aux sp co 5\nv 1 24940000 60170000\nv 2 24955000 60160000\nv 3 24947000 60165000\nv 4 24930000 60180000\nv 5 24970000 60150000\n",
            ),
        ],
        b"at,stop:HL,stop:HB,08:00:00,,4\nat,stop:P1,stop:HL,00:00:00,,2\nat,stop:MK,node:2,08:20:00,,1\nat,stop:IS,stop:HB,08:30:00,,3\nat,stop:IS,stop:HB,09:00:01,,3\nrange,stop:P1,stop:HB,08:00:00,08:30:00,2",
        b"1,1,pair,0,stop:HL,4,stop:HB,2,08:00:00,,08:43:20\n1,1,walk,,,4,,1,08:00:00,08:25:00,\n1,1,walk,,,1,,3,08:25:00,08:33:20,\n1,1,walk,,,3,,2,08:33:20,08:43:20,\n1,2,pair,1,stop:HL,4,stop:HB,2,08:00:00,,08:31:20\n1,2,ride,4_A,HL,4,P2,1,08:05:00,08:13:00,\n1,2,walk,,,1,,3,08:13:00,08:21:20,\n1,2,walk,,,3,,2,08:21:20,08:31:20,\n1,3,pair,2,stop:HL,4,stop:HB,2,08:00:00,,08:27:00\n1,3,ride,4_A,HL,4,P2,1,08:05:00,08:13:00,\n1,3,ride,10_0815,P1,1,HB,2,08:15:00,08:27:00,\n2,1,pair,0,stop:P1,1,stop:HL,4,00:00:00,,00:25:00\n2,1,walk,,,1,,4,00:00:00,00:25:00,\n2,2,pair,1,stop:P1,1,stop:HL,4,00:00:00,,00:16:00\n2,2,ride,N1_2340,P1,1,HL,4,00:06:00,00:16:00,\n3,1,pair,0,stop:MK,3,node:2,2,08:20:00,,08:30:00\n3,1,walk,,,3,,2,08:20:00,08:30:00,\n3,2,pair,1,stop:MK,3,node:2,2,08:20:00,,08:27:00\n3,2,ride,10_0815,MK,3,HB,2,08:21:00,08:27:00,\n4,1,pair,1,stop:IS,5,stop:HB,2,08:30:00,,09:20:00\n4,1,ride,F_0900,IS,5,HB,2,09:00:00,09:20:00,\n5,0,none,,stop:IS,5,stop:HB,2,09:00:01,,\n6,1,foot,1100,stop:P1,1,stop:HB,2,08:00:00,08:30:00,\n6,1,walk,,,1,,3,08:00:00,08:08:20,\n6,1,walk,,,3,,2,08:08:20,08:18:20,\n6,2,span,1,stop:P1,1,stop:HB,2,08:08:41,08:15:00,08:27:00\n6,2,ride,10_0815,P1,1,HB,2,08:15:00,08:27:00,\n",
    ),
];
