// Laws over the definitions, each the contract of a function that does nothing.
ghost use Rattle.std.specs.Prelude.{◌≡◌, ◌<◌, ◌≤◌, ◌↔◌, ℕ, List, [], ◌∷◌, Contains};
ghost use Rattle.move_model.specs.declared.network.Network.{Network};
ghost use Rattle.move_model.specs.declared.network.NodeNo.{NodeNo};
ghost use Rattle.move_model.specs.declared.network.StopNo.{StopNo};
ghost use Rattle.move_model.specs.declared.journey.Shortcut.{Shortcut};
ghost use Rattle.move_model.specs.Network.{IsNetwork, node_of};
ghost use Rattle.move_model.specs.Shortcut.{Piece, IsStart, IsCandidate, IsBettered, IsShortcut};
ghost use Rattle.piece_laws.specs.declared.labels.Ready.{Ready};
ghost use Rattle.piece_laws.specs.declared.labels.Second.{Second};
ghost use Rattle.piece_laws.specs.Pieces.{IsOnFoot, IsCovered, HasFirst, HasReady, HasSecond, IsNeeded, IsOfStart};
ghost use Rattle.piece_laws.specs.Tables.{never, FirstStands, ReadyStands, SecondStands, OwnStands, OwnFirstStands, IsWalkClosed, IsRideClosed, IsRead};

/// What is true from a second is true from every earlier one: first rides, labels, walks and journeys with at most one ride.
pub fn kept_earlier()
    ensures first { (n : Network) (q : NodeNo) (z z' : ℕ) (x : StopNo) (a : ℕ)
        → z' ≤ z → HasFirst n q z x a → HasFirst n q z' x a }
    ensures ready { (n : Network) (q : NodeNo) (z z' : ℕ) (y : StopNo) (l : Ready)
        → z' ≤ z → HasReady n q z y l → HasReady n q z' y l }
    ensures second { (n : Network) (q : NodeNo) (z z' : ℕ) (v : StopNo) (k : Second)
        → z' ≤ z → HasSecond n q z v k → HasSecond n q z' v k }
    ensures on_foot { (n : Network) (q : NodeNo) (z z' : ℕ) (y : StopNo) (a : ℕ)
        → z' ≤ z → IsOnFoot n q z y a → IsOnFoot n q z' y a }
    ensures covered { (n : Network) (q : NodeNo) (z z' : ℕ) (v : StopNo) (a : ℕ)
        → z' ≤ z → IsCovered n q z v a → IsCovered n q z' v a }
{}

/// Least labels make least labels: first rides that are closed under walks give when the passenger is ready, and these,
/// closed under rides, give second rides. A label that walking or one ride makes needless may be missing.
pub fn labels_compose()
    ensures ready { (n : Network) (q : NodeNo) (z h : ℕ) (first : StopNo → ℕ) (ready : StopNo → Ready)
        → IsNetwork n → FirstStands n q z h first
        → ((y : StopNo) → (ready y).ready < never → HasReady n q z y (ready y))
        → IsWalkClosed n q z h first ready → ReadyStands n q z h ready }
    ensures second { (n : Network) (q : NodeNo) (z h : ℕ) (ready : StopNo → Ready) (best : StopNo → Second)
        → IsNetwork n → ReadyStands n q z h ready
        → ((v : StopNo) → (best v).a2 < never → HasSecond n q z v (best v))
        → IsRideClosed n q z h ready best → SecondStands n q z h best }
{}

/// The labels of a start at some stops of one vertex tell exactly the walks that are needed for second rides left before
/// h: a label is a needed candidate's where it is read; and each needed candidate's label is read, with its arrival, even
/// where of all first rides only those from the stops themselves are sure to be in the labels.
pub fn read_exactly()
    ensures needed { (n : Network) (us : List StopNo) (q : NodeNo) (z h : ℕ) (own : StopNo → ℕ) (ready : StopNo → Ready) (best : StopNo → Second)
        → IsNetwork n → h ≤ never → ((u : StopNo) → Contains us u → node_of n u ≡ q)
        → OwnStands n us z own → ReadyStands n q z h ready → SecondStands n q z h best
        → (v x y : StopNo) → IsRead n q z h own ready best v x y → IsNeeded n us z x y }
    ensures read { (n : Network) (us : List StopNo) (q : NodeNo) (z h : ℕ) (own first : StopNo → ℕ) (ready : StopNo → Ready) (best : StopNo → Second)
        → IsNetwork n → h ≤ never → ((u : StopNo) → Contains us u → node_of n u ≡ q)
        → OwnStands n us z own → OwnFirstStands n us q z h first
        → ((y : StopNo) → (ready y).ready < never → HasReady n q z y (ready y)) → IsWalkClosed n q z h first ready
        → ((v : StopNo) → (best v).a2 < never → HasSecond n q z v (best v)) → IsRideClosed n q z h ready best
        → (u v : StopNo) (piece : Piece) → Contains us u → IsCandidate n u z v piece → (IsBettered n u z v piece → ⊥) → piece.off2.arr < h
        → IsRead n q z h own ready best v piece.off1.stop piece.on2.stop × ((best v).a2 ≡ piece.off2.arr) }
{}

/// The shortcuts are the needed walks of all starts. Those of several stops together are those of each; each belongs to a
/// start; and stops at one vertex have the same pieces.
pub fn shortcuts_by_start()
    ensures each { (n : Network) (shortcut : Shortcut) → IsShortcut n shortcut ↔ IsOfStart n shortcut }
    ensures together { (n : Network) (us : List StopNo) (z : ℕ) (x y : StopNo)
        → IsNeeded n us z x y ↔ ((u : StopNo) × Contains us u × IsNeeded n (u ∷ []) z x y) }
    ensures starts { (n : Network) (us : List StopNo) (z : ℕ) (x y : StopNo)
        → IsNeeded n us z x y → (u : StopNo) × Contains us u × IsStart n u z }
    ensures alike { (n : Network) (u w : StopNo) (z : ℕ) (v : StopNo) (piece : Piece)
        → node_of n u ≡ node_of n w → IsBettered n u z v piece → IsBettered n w z v piece }
{}
