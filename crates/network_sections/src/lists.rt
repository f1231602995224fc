// Sections 7 to 9: entries between vertices and stops, and walks between stops.
ghost use Rattle.std.specs.Prelude.{◌≡◌, ◌≤◌, IfOk, IsErrOf};
ghost use Rattle.network_bytes.specs.Bytes.{long_list};
ghost use Rattle.network_bytes.specs.Forms.{bucket_form, shortcut_form};
ghost use Rattle.network_bytes.specs.declared.stop.ReadStop.TheVariants as stop;
ghost use Rattle.network_codec.specs.Rules.{AreEntries, AreShortcuts};
ghost use Rattle.network_sections.specs.Front.{IsInFront, HasNoneInFront};

use bucket_walks::BucketList;
use move_model::Shortcuts;
use network_bytes::{ReadStop, long_list};
use network_shape::{are_buckets, are_transfers};
use std::alloc::Global;

/// Section 7 or 8: entries between so many vertices and stops.
pub fn buckets(
    alloc: Global,
    nodes: u32,
    stops: u32,
    bytes: &[u8],
) -> Result<(BucketList, &[u8]), ReadStop>
    requires few_nodes { nodes ≤ 2000000 }
    requires few_stops { stops ≤ 200000 }
    ensures found { IfOk result (λ x. IsInFront (long_list bucket_form) (AreEntries nodes stops) bytes.now x.0 x.1.now) }
    ensures broken { IsErrOf result stop.Broken → HasNoneInFront (long_list bucket_form) (AreEntries nodes stops) bytes.now }
{
    let (entries, rest) = long_list(alloc, bytes)?;
    if !are_buckets(nodes, stops, entries.as_slice()) {
        return Err(ReadStop::Broken);
    }
    Ok((entries, rest))
}

/// Section 9: walks between so many stops.
pub fn shortcuts(alloc: Global, stops: u32, bytes: &[u8]) -> Result<(Shortcuts, &[u8]), ReadStop>
    requires { stops ≤ 200000 }
    ensures found { IfOk result (λ x. IsInFront (long_list shortcut_form) (AreShortcuts stops) bytes.now x.0 x.1.now) }
    ensures broken { IsErrOf result stop.Broken → HasNoneInFront (long_list shortcut_form) (AreShortcuts stops) bytes.now }
{
    let (list, rest) = long_list(alloc, bytes)?;
    if !are_transfers(stops, list.as_slice()) {
        return Err(ReadStop::Broken);
    }
    Ok((list, rest))
}
