// Where the items of each vertex begin, in lists by rising vertex, or those of each stop in lists by rising stop.
ghost use Rattle.std.specs.Prelude.{◌≡◌, ◌-◌, ◌+◌, ◌<◌, ◌≤◌, ◌^◌, ℕ, IfOk, length, slice_index, take, drop};
ghost use Rattle.std.specs.List.Sorted.{IsNonDecreasing};
ghost use Rattle.bucket_walks.specs.Starts.{IsFirst, AreStarts};

use std::alloc::{AllocError, Global};

// How many items have a vertex before this one, where those before a place have.
fn first_place(nodes: &[u32], place: usize, node: u32) -> usize
    requires rise { IsNonDecreasing nodes.now }
    requires within { place ≤ length nodes.now }
    requires before { (i : ℕ) → i < place → slice_index nodes.now i < node }
    ensures { IsFirst nodes.now node result }
{
    let mut at = place;
    'items: while at < nodes.len() && nodes[at] < node {
        at += 1;
    }
    at
}

// The first places of the vertices from 0 to the one behind the last, where the items have these vertices.
pub(crate) fn starts(alloc: Global, last: u32, nodes: &[u32]) -> Result<Vec<u32>, AllocError>
    requires rise { IsNonDecreasing nodes.now }
    requires few { length nodes.now < 2 ^ 32 }
    requires small { last < 2 ^ 32 - 2 }
    ensures many { IfOk result (λ starts. length starts.items ≡ last + 2) }
    ensures first { IfOk result (λ starts. AreStarts starts.items nodes.now) }
{
    let mut starts = Vec::with_capacity(alloc, last as usize + 2)?;
    let mut place = 0;
    for node in 0..last + 2 {
        place = first_place(nodes, place, node);
        starts.push(place as u32)?;
    }
    Ok(starts)
}

// The items of a vertex.
pub(crate) fn row<'a, T>(items: &'a [T], starts: &[u32], node: u32) -> &'a [T]
    requires rises { slice_index starts.now node ≤ slice_index starts.now (node + 1) }
    requires within { slice_index starts.now (node + 1) ≤ length items.now }
    requires exists { node + 1 < length starts.now }
    ensures { result.now ≡ take (slice_index starts.now (node + 1) - slice_index starts.now node)
        (drop (slice_index starts.now node) items.now) }
{
    let begin = starts[node as usize] as usize;
    let end = starts[node as usize + 1] as usize;
    &items[begin..end]
}
