// A counter at a concrete ledger, lent to a call whose clause bounds its rise.
ghost use Rattle.std.specs.Prelude.{◌≡◌, ◌+◌, ◌<◌, ◌≤◌, length};

use crate::Steps;
use std::marker::Brand;
use std::sync::ledger::{Blank, Ledger};

fn sum_counted<L: Ledger>(items: &[u32], steps: &mut Steps<L>) -> u32
    ensures { steps.new ≤ steps.old + length items.now }
{
    let mut sum = 0u32;
    for item in items {
        steps.tick();
        sum = sum.wrapping_add(*item);
    }
    sum
}

fn sum_over<L: Ledger>(blank: Blank) -> u32
    requires name { blank.name ≡ L.name }
    requires parts { blank.parts ≡ L.parts }
    requires some { 0 < blank.parts }
{
    let mut steps = Steps::<L>::new(blank);
    sum_counted(&[3, 4], &mut steps)
}

#[test]
fn sums(rt: HostRuntime) {
    assert_eq!(rt; sum_over::<Brand>(Blank::new(1)), 7);
}
