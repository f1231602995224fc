// The searched list against the plain one, over networks from seeds.
use crate::lists::lists_of;
use crate::networks::network_of;
use move_model::{NoMemory, Shortcuts};
use std::alloc::Global;
use std::test::Fail;

/// How many networks had no shortcut, how many had some, and how many shortcuts there were.
#[derive(Clone, Copy)]
struct Tally {
    none: u32,
    some: u32,
    entries: u64,
}

impl Tally {
    fn count(&mut self, list: &Shortcuts) {
        if list.is_empty() {
            self.none = self.none.wrapping_add(1);
        } else {
            self.some = self.some.wrapping_add(1);
        }
        self.entries = self.entries.wrapping_add(list.len() as u64);
    }
}

// Whether both lists of the network of a seed are the same.
fn is_same(alloc: Global, seed: u32, tally: &mut Tally) -> Result<bool, NoMemory> {
    let network = network_of(alloc, seed)?;
    let Some(lists) = lists_of(alloc, &network)? else {
        return Ok(false);
    };
    tally.count(&lists.plain);
    Ok(lists.plain.as_slice() == lists.built.as_slice())
}

// The first seed of a range where the lists differ.
fn first_difference(
    alloc: Global,
    first: u32,
    count: u32,
    tally: &mut Tally,
) -> Result<Option<u32>, NoMemory> {
    for place in 0..count {
        let seed = first.wrapping_add(place);
        if !is_same(alloc, seed, tally)? {
            return Ok(Some(seed));
        }
    }
    Ok(None)
}

#[test]
fn gives_the_plain_list(rt: HostRuntime) -> Result<(), Fail> {
    let mut tally = Tally {
        none: 0,
        some: 0,
        entries: 0,
    };
    let found = first_difference(rt.alloc(), 1, 400, &mut tally)?;
    assert_eq!(rt; found, None);
    // Most networks have shortcuts, and some have none.
    assert!(rt; tally.some > 300);
    assert!(rt; tally.none > 0);
    assert!(rt; tally.entries > 900);
    Ok(())
}
