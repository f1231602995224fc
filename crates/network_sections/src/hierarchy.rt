// Sections 4 to 6: a hierarchy.
ghost use Rattle.std.specs.Prelude.{◌≡◌, ◌≤◌, [], length, IfOk, IsErrOf};
ghost use Rattle.std.specs.List.{flat_map};
ghost use Rattle.network_bytes.specs.Bytes.{word, long_list};
ghost use Rattle.network_bytes.specs.Forms.{up_down_form};
ghost use Rattle.network_bytes.specs.declared.stop.ReadStop.TheVariants as stop;
ghost use Rattle.network_codec.specs.Rules.{graph_of, AreRanksOf, AreUp, AreDown};
ghost use Rattle.network_sections.specs.Front.{IsInFront, HasNoneInFront};

use move_model::Network;
use network_bytes::{ReadStop, entries, long_list};
use network_rules::{are_ranks, fall_down, rise_up};
use network_shape::are_made;
use std::alloc::Global;
use walk_hierarchy::{Ranks, UpDown, UpDowns};

/// Section 4: the ranks of so many vertices.
pub fn ranks(alloc: Global, nodes: u32, bytes: &[u8]) -> Result<(Ranks, &[u8]), ReadStop>
    ensures found { IfOk result (λ x. IsInFront (flat_map word) (AreRanksOf nodes) bytes.now x.0 x.1.now) }
    ensures broken { IsErrOf result stop.Broken → HasNoneInFront (flat_map word) (AreRanksOf nodes) bytes.now }
{
    let (ranks, rest) = entries(alloc, nodes as u64, bytes)?;
    let right = are_ranks(alloc, ranks.as_slice())?;
    if !right {
        return Err(ReadStop::Broken);
    }
    Ok((ranks, rest))
}

/// Section 5: the arcs up of a hierarchy with these ranks.
pub fn arcs_up<'a>(
    alloc: Global,
    ranks: &[u32],
    bytes: &'a [u8],
) -> Result<(UpDowns, &'a [u8]), ReadStop>
    requires { length ranks.now ≤ 2000000 }
    ensures found { IfOk result (λ x. IsInFront (long_list up_down_form) (λ up. AreUp (record { ranks = ranks.now; up = up; down = [] })) bytes.now x.0 x.1.now) }
    ensures broken { IsErrOf result stop.Broken → HasNoneInFront (long_list up_down_form) (λ up. AreUp (record { ranks = ranks.now; up = up; down = [] })) bytes.now }
{
    let (up, rest) = long_list(alloc, bytes)?;
    if !rise_up(ranks, up.as_slice()) {
        return Err(ReadStop::Broken);
    }
    Ok((up, rest))
}

/// Section 6: the arcs down of a hierarchy with these ranks and arcs up, over the streets of the network.
pub fn arcs_down<'a>(
    alloc: Global,
    network: &Network,
    ranks: &[u32],
    up: &[UpDown],
    bytes: &'a [u8],
) -> Result<(UpDowns, &'a [u8]), ReadStop>
    requires few { length ranks.now ≤ 2000000 }
    requires up { AreUp (record { ranks = ranks.now; up = up.now; down = [] }) }
    ensures found { IfOk result (λ x. IsInFront (long_list up_down_form) (λ down. AreDown (graph_of network.now) (record { ranks = ranks.now; up = up.now; down = down })) bytes.now x.0 x.1.now) }
    ensures broken { IsErrOf result stop.Broken → HasNoneInFront (long_list up_down_form) (λ down. AreDown (graph_of network.now) (record { ranks = ranks.now; up = up.now; down = down })) bytes.now }
{
    let (down, rest) = long_list(alloc, bytes)?;
    if !fall_down(ranks, down.as_slice()) {
        return Err(ReadStop::Broken);
    }
    let made = are_made(alloc, network, ranks, up, down.as_slice())?;
    if !made {
        return Err(ReadStop::Broken);
    }
    Ok((down, rest))
}
