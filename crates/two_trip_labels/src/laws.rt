// What closed and sound labels say.
ghost use Rattle.std.specs.Prelude.{◌≡◌, ◌<◌, ◌≤◌, ◌+◌, ℕ, List, Contains, length, slice_index};
ghost use Rattle.move_model.specs.declared.network.Network.{Network};
ghost use Rattle.move_model.specs.declared.network.NodeNo.{NodeNo};
ghost use Rattle.move_model.specs.declared.network.StopNo.{StopNo};
ghost use Rattle.move_model.specs.Network.{IsNetwork, node_of};
ghost use Rattle.piece_laws.specs.declared.labels.Ready.{Ready};
ghost use Rattle.piece_laws.specs.Pieces.{HasFirst, HasReady};
ghost use Rattle.piece_laws.specs.Tables.{never, FirstStands, ReadyStands, SecondStands, OwnFirstStands, IsWalkClosed, IsRideClosed};
ghost use Rattle.two_trip_labels.specs.Closed.{last_second, Parts, ArePartsOf, Kept, walked_at, boarded_at, best_at, place_label, IsLabel, IsClosed, IsSound};

/// Labels that are closed before a second h, and sound, are the least ones of all first rides, of all stops where the
/// passenger is ready, and of all second rides that end before h, but for those that walking or one ride makes needless.
/// Where stops were boarded only if they are walked to before some second after the start, they hold at least the first rides
/// from the stops where the passenger sets out.
pub fn labels_stand()
    ensures first { (n : Network) (q : NodeNo) (z g h : ℕ) (p : Parts) (k : Kept) → IsNetwork n → ArePartsOf n q p → h ≤ 1 + last_second
        → IsClosed n p z g h k → h ≤ g → IsSound n q z p k → FirstStands n q z h (walked_at k) }
    ensures ready { (n : Network) (q : NodeNo) (z g h : ℕ) (p : Parts) (k : Kept) → IsNetwork n → ArePartsOf n q p → h ≤ 1 + last_second
        → IsClosed n p z g h k → h ≤ g → IsSound n q z p k → ReadyStands n q z h (boarded_at k) }
    ensures second { (n : Network) (q : NodeNo) (z g h : ℕ) (p : Parts) (k : Kept) → IsNetwork n → ArePartsOf n q p → h ≤ 1 + last_second
        → IsClosed n p z g h k → h ≤ g → IsSound n q z p k → SecondStands n q z h (best_at k) }
    ensures own { (n : Network) (us : List StopNo) (q : NodeNo) (z g h : ℕ) (p : Parts) (k : Kept) → IsNetwork n → ArePartsOf n q p
        → ((u : StopNo) → Contains us u → node_of n u ≡ q) → h ≤ 1 + last_second
        → IsClosed n p z g h k → z < g → IsSound n q z p k → OwnFirstStands n us q z h (walked_at k) }
    ensures walks { (n : Network) (q : NodeNo) (z g h : ℕ) (p : Parts) (k : Kept) → IsNetwork n → ArePartsOf n q p → h ≤ 1 + last_second
        → IsClosed n p z g h k → IsWalkClosed n q z h (walked_at k) (boarded_at k) }
    ensures rides { (n : Network) (q : NodeNo) (z g h : ℕ) (p : Parts) (k : Kept) → IsNetwork n → ArePartsOf n q p → h ≤ 1 + last_second
        → IsClosed n p z g h k → IsSound n q z p k → IsRideClosed n q z h (boarded_at k) (best_at k) }
{}

/// What is kept lasts: closed and sound labels are so at every earlier second, where only what became catchable is left to
/// be boarded.
pub fn labels_last()
    ensures closed { (n : Network) (z z' g h : ℕ) (p : Parts) (k : Kept) → z' ≤ z → IsClosed n p z g h k → IsClosed n p z' 0 0 k }
    ensures sooner { (n : Network) (z g h h' : ℕ) (p : Parts) (k : Kept) → h' ≤ h → IsClosed n p z g h k → IsClosed n p z g h' k }
    ensures sound { (n : Network) (q : NodeNo) (z z' : ℕ) (p : Parts) (k : Kept) → z' ≤ z → IsSound n q z p k → IsSound n q z' p k }
{}

/// The label with which a stop is boarded is that of a first ride and a walk.
pub fn label_stands()
    ensures { (n : Network) (q : NodeNo) (z : ℕ) (p : Parts) (k : Kept) (y : StopNo) (l : Ready) → IsNetwork n → IsSound n q z p k → y.0 < length n.stops
        → (slice_index k.first y.0 < never → HasFirst n q z y (slice_index k.first y.0))
        → IsLabel k.first (place_label p k y) y l → l.ready < never → HasReady n q z y l }
{}
