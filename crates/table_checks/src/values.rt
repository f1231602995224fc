// Tables of texts and of what is read from them.
use move_model::Cause;
use std::test::Fail;
use tables::{
    ByteRecord, Names, cell, check_id, count_rows, find_column, open_table, read_number,
    read_second, require_column, rows_above,
};

#[test]
fn reads_cells(rt: HostRuntime) -> Result<(), Fail> {
    let text =
        b"\xEF\xBB\xBF\xEF\xBB\xBF\r\nid,\tname ,id,\"a,b\"\r\n1, two words\t,3\r\n\r\n4,\"\"\"5\"\" \",6,7,8";
    let Ok(mut table) = open_table(rt.alloc(), text) else {
        return Ok(());
    };
    let id = find_column(&table.header, b"id");
    let name = find_column(&table.header, b"name");
    let quoted = find_column(&table.header, b"a,b");
    let none = find_column(&table.header, b"x");
    assert_eq!(rt; [id, name, quoted, none], [Some(0), Some(1), Some(3), None]);
    assert_eq!(rt; require_column(2, none), Err(Cause::NoColumn(2)));
    assert_eq!(rt; require_column(2, name), Ok(1));
    let mut row = ByteRecord::new(rt.alloc());
    let found = table.rows.next_row(&mut row)?;
    assert!(rt; found);
    assert_eq!(rt; cell(&row, id), b"1".as_slice());
    assert_eq!(rt; cell(&row, name), b"two words".as_slice());
    assert_eq!(rt; cell(&row, quoted), b"".as_slice());
    assert_eq!(rt; cell(&row, none), b"".as_slice());
    let found = table.rows.next_row(&mut row)?;
    assert!(rt; found);
    assert_eq!(rt; cell(&row, name), b"\"5\"".as_slice());
    assert_eq!(rt; cell(&row, quoted), b"7".as_slice());
    let found = table.rows.next_row(&mut row)?;
    assert!(rt; !found);
    assert_eq!(rt; row.len(), 0);
    Ok(())
}

#[test]
fn counts(rt: HostRuntime) -> Result<(), Fail> {
    let tables = [
        (b"".as_slice(), 0),
        (b"\n\n", 0),
        (b"header", 0),
        (b"header\r\n1\r\n\r\n2\r\n", 2),
        (b"header\n\"1\n1\"\n2", 2),
    ];
    for (text, count) in tables.iter() {
        assert_eq!(rt; count_rows(rt.alloc(), text)?, *count);
        assert_eq!(rt; rows_above(rt.alloc(), text, *count)?, None);
    }
    assert_eq!(rt; rows_above(rt.alloc(), b"header\n1\n2\n", 1)?, Some(2));
    Ok(())
}

#[test]
fn reads_values(rt: HostRuntime) -> Result<(), Fail> {
    let numbers = [
        (b"0".as_slice(), Some(0)),
        (b"007", Some(7)),
        (b"18446744073709551615", Some(18_446_744_073_709_551_615)),
        (b"00000000000000000001", Some(1)),
        (b"18446744073709551616", None),
        (b"000000000000000000001", None),
        (b"", None),
        (b"+1", None),
        (b"1 ", None),
    ];
    for (text, wanted) in numbers.iter() {
        assert_eq!(rt; read_number(text), *wanted, "in {text:?}");
    }
    let mut long = Vec::new(rt.alloc());
    for _ in 0..255 {
        long.push(b'a')?;
    }
    assert_eq!(rt; check_id(long.as_slice()), Ok(()));
    long.push(b'\xFF')?;
    assert_eq!(rt; check_id(long.as_slice()), Err(Cause::IdLong(256)));
    assert_eq!(rt; check_id(b""), Err(Cause::IdEmpty));
    assert_eq!(rt; check_id(b"\xC3\xA9"), Ok(()));
    assert_eq!(rt; check_id(b"\xC3"), Err(Cause::NotUtf8));
    assert_eq!(rt; read_second(b"25:00:01"), Ok(90_001));
    assert_eq!(rt; read_second(b"25:00"), Err(Cause::Time));
    Ok(())
}

#[test]
fn numbers_names(rt: HostRuntime) -> Result<(), Fail> {
    let mut names = Names::new(rt.alloc());
    for (name, new) in [
        (b"a".as_slice(), true),
        (b"b", true),
        (b"a", false),
        (b"", true),
    ] {
        assert_eq!(rt; names.insert(rt.alloc(), name)?, new);
    }
    assert_eq!(rt;
        [names.place(b"b"), names.place(b""), names.place(b"c")],
        [Some(1), Some(2), None]
    );
    Ok(())
}
