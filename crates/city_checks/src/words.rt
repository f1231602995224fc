// Words that name a city, and words that name none.
use city_run::{CityWords, city_words};
use std::test::Fail;

const NONE: [[&str; 3]; 9] = [
    ["4", "0", "1"],
    ["201", "0", "1"],
    ["5", "201", "1"],
    ["5", "0", "18446744073709551616"],
    ["5", "0", "000000000000000000001"],
    ["", "0", "1"],
    ["5", "-1", "1"],
    ["5", "0", " 1"],
    ["5", "0", "1.0"],
];

#[test]
fn reads_the_numbers_of_a_city(rt: HostRuntime) -> Result<(), Fail> {
    let least = CityWords {
        side: 5,
        lines: 0,
        number: 0,
    };
    assert_eq!(rt; city_words("5", "0", "0"), Some(least));
    let most = CityWords {
        side: 200,
        lines: 200,
        number: 18_446_744_073_709_551_615,
    };
    let words = city_words("0200", "200", "18446744073709551615");
    assert_eq!(rt; words, Some(most));
    Ok(())
}

#[test]
fn reads_no_other_words(rt: HostRuntime) -> Result<(), Fail> {
    for [side, lines, number] in NONE {
        assert_eq!(rt; city_words(side, lines, number), None);
    }
    Ok(())
}
