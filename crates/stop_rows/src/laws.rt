// What the rows say of stops.
ghost use Rattle.std.specs.Prelude.{◌≡◌, ◌<◌, ◌↔◌, length};
ghost use Rattle.move_model.specs.declared.network.Network.{Network};
ghost use Rattle.move_model.specs.declared.network.StopNo.{StopNo};
ghost use Rattle.move_model.specs.Network.{streets, node_of};
ghost use Rattle.stop_rows.specs.Rows.{Rows, HoldsRows, IsEntry, entry, place_at};

/// The entry at the places of two stops is that of their vertices, and two stops have one place exactly where they stand
/// at one vertex.
pub fn between_stops()
    ensures entries { (n : Network) (rows : Rows) (x y : StopNo) → HoldsRows n rows → x.0 < length n.stops → y.0 < length n.stops
        → IsEntry (streets n) (node_of n x) (node_of n y) (entry rows (place_at rows x) (place_at rows y)) }
    ensures together { (n : Network) (rows : Rows) (x y : StopNo) → HoldsRows n rows → x.0 < length n.stops → y.0 < length n.stops
        → (place_at rows x ≡ place_at rows y) ↔ (node_of n x ≡ node_of n y) }
{}
