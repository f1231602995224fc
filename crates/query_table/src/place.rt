// Places.
ghost use Rattle.std.specs.Prelude.{◌≡◌};
ghost use Rattle.move_model.specs.Network.{node_of_stop};
ghost use Rattle.refusals.specs.Refusal.{Tests};
ghost use Rattle.tables.specs.Values.{number_in};
ghost use Rattle.query_table.specs.Places as spec;

use crate::stops::StopIds;
use move_model::{Cause, Network, NodeNo};
use tables::read_number;

// The vertex with a number.
#[tactic(auto, unfolding(crate::specs::Places::node_broken))]
fn node(network: &Network, text: &[u8]) -> Result<NodeNo, Cause>
    ensures { Tests result (spec.node_broken network.now text.now) (record { 0 = number_in text.now }) }
{
    match read_number(text) {
        None => Err(Cause::Place),
        Some(number) => {
            if 1 <= number && number <= u64::from(network.nodes) {
                Ok(NodeNo(number as u32))
            } else {
                Err(Cause::Vertex(number))
            }
        }
    }
}

// The vertex of the stop with an id.
#[tactic(auto, unfolding(crate::specs::Places::stop_broken))]
fn stop(network: &Network, ids: &StopIds, id: &[u8]) -> Result<NodeNo, Cause>
    requires { ids.now ≡ network.now.stops }
    ensures { Tests result (spec.stop_broken network.now id.now) (node_of_stop (spec.stop_named id.now network.now.stops)) }
{
    match ids.find(id) {
        Some(found) => Ok(found.node),
        None => Err(Cause::UnknownStop),
    }
}

/// The vertex that a place names: `node:` and its number, or `stop:` and the id of a stop that stands at it.
#[tactic(auto, unfolding(crate::specs::Places::place_broken, crate::specs::Places::node_in))]
pub fn place(network: &Network, ids: &StopIds, text: &[u8]) -> Result<NodeNo, Cause>
    requires { ids.now ≡ network.now.stops }
    ensures { Tests result (spec.place_broken network.now text.now) (spec.node_in network.now text.now) }
{
    if let Some(number) = text.strip_prefix(b"node:".as_slice()) {
        return node(network, number);
    }
    if let Some(id) = text.strip_prefix(b"stop:".as_slice()) {
        return stop(network, ids, id);
    }
    Err(Cause::Place)
}
