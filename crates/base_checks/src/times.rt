// Texts of times, by the worked rows of the format.
use move_model::{TimeText, read_time, write_time};

#[test]
fn reads_times(rt: HostRuntime) {
    let rows: [(&[u8], Option<u32>); 12] = [
        (b"07:55:00", Some(28_500)),
        (b"7:00:00", Some(25_200)),
        (b"24:50:00", Some(89_400)),
        (b"999:59:59", Some(3_599_999)),
        (b"000:00:00", Some(0)),
        (b"00:60:00", None),
        (b"00:00:60", None),
        (b"0000:00:00", None),
        (b"12:3:00", None),
        (b"12-30-00", None),
        (b":00:00", None),
        (b"", None),
    ];
    for (text, second) in rows {
        assert_eq!(rt; read_time(text), second);
    }
}

#[test]
fn writes_times(rt: HostRuntime) {
    let rows: [(u64, &[u8]); 5] = [
        (0, b"00:00:00"),
        (28_500, b"07:55:00"),
        (90_240, b"25:04:00"),
        (3_600_000, b"1000:00:00"),
        (u64::MAX, b"5124095576030431:00:15"),
    ];
    let mut text = TimeText::new();
    for (second, written) in rows {
        write_time(second, &mut text);
        assert_eq!(rt; text.bytes(), written);
    }
}
