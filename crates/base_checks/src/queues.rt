// Keys in the order in which a queue yields them.
use std::test::Fail;
use walk_queue::MinQueue;

#[test]
fn least_key_first(rt: HostRuntime) -> Result<(), Fail> {
    let mut queue = MinQueue::new(rt.alloc(), 3)?;
    assert!(rt; queue.put_or_lower(2, 7));
    assert!(rt; queue.put_or_lower(0, 7));
    assert!(rt; queue.put_or_lower(1, 9));
    assert!(rt; queue.put_or_lower(1, 5));
    assert!(rt; !queue.put_or_lower(2, 8));
    for taken in [Some((1, 5)), Some((0, 7)), Some((2, 7)), None] {
        assert_eq!(rt; queue.take_least(), taken);
    }
    Ok(())
}

#[test]
fn pairs_of_numbers(rt: HostRuntime) -> Result<(), Fail> {
    let mut queue = MinQueue::new(rt.alloc(), 6)?;
    assert_eq!(rt; queue.places(), 6);
    assert!(rt; queue.put_or_lower(2, (0u64, 0u32)));
    assert!(rt; !queue.is_empty());
    queue.clear();
    assert!(rt; queue.is_empty());
    assert!(rt; queue.put_or_lower(5, (1, 2)));
    assert!(rt; queue.put_or_lower(3, (1, 1)));
    assert!(rt; queue.put_or_lower(0, (2, 0)));
    assert!(rt; queue.put_or_lower(4, (0, 9)));
    assert!(rt; queue.put_or_lower(2, (1, 0)));
    assert!(rt; !queue.put_or_lower(3, (1, 1)));
    assert!(rt; queue.put_or_lower(0, (0, 9)));
    let rest = [
        Some((0, (0, 9))),
        Some((4, (0, 9))),
        Some((2, (1, 0))),
        Some((3, (1, 1))),
        Some((5, (1, 2))),
        None,
    ];
    for taken in rest {
        assert_eq!(rt; queue.take_least(), taken);
    }
    Ok(())
}
