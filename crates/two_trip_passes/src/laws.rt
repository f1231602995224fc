// What a search's passes leave.
ghost use Rattle.std.specs.Prelude.{◌≡◌, ◌<◌, ◌≤◌, ◌+◌, ◌↔◌, ℕ, List, Contains, Some, length, slice_get, slice_index};
ghost use Rattle.move_model.specs.declared.network.Network.{Network};
ghost use Rattle.move_model.specs.declared.network.NodeNo.{NodeNo};
ghost use Rattle.move_model.specs.declared.network.StopNo.{StopNo};
ghost use Rattle.move_model.specs.declared.network.TripNo.{TripNo};
ghost use Rattle.move_model.specs.declared.network.Call.{Call};
ghost use Rattle.move_model.specs.Journey.{HasCall};
ghost use Rattle.move_model.specs.Network.{IsNetwork, node_of};
ghost use Rattle.route_split.specs.Route.{Route, IsRoute};
ghost use Rattle.route_split.specs.Calls.{HoldsTrips};
ghost use Rattle.stop_rows.specs.Rows.{Rows};
ghost use Rattle.piece_laws.specs.declared.labels.Ready.{Ready};
ghost use Rattle.piece_laws.specs.declared.labels.Second.{Second};
ghost use Rattle.piece_laws.specs.declared.labels.Held.{Held};
ghost use Rattle.piece_laws.specs.Pieces.{IsNeeded};
ghost use Rattle.piece_laws.specs.Tables.{never, OwnStands};
ghost use Rattle.two_trip_rides.specs.Second.{ready_at};
ghost use Rattle.two_trip_labels.specs.First.{FirstGoes, FirstSound};
ghost use Rattle.two_trip_labels.specs.Second.{SecondSound};
ghost use Rattle.two_trip_labels.specs.Closed.{last_second, ArePartsOf, Kept, IsClosed, IsSound};
ghost use Rattle.two_trip_passes.specs.Stops.{IsStopBoarded};
ghost use Rattle.two_trip_passes.specs.Walks.{WalkGoes, last_walked};
ghost use Rattle.two_trip_passes.specs.Rides.{RideGoes, IsBoardedLow, AreReal};
ghost use Rattle.two_trip_passes.specs.Own.{IsOwnOfAny, OwnFrom, own_at};
ghost use Rattle.two_trip_passes.specs.Read.{IsReadOf, HasRead};
ghost use Rattle.two_trip_passes.specs.Step.{parts_of, source_of, AreRowsOf, with_walks, with_rides, IsReal};

/// The least arrivals of the rides that depart at a second and the buffer from some stops are those of their own rides.
pub fn own_stands()
    ensures { (n : Network) (us : List StopNo) (z : ℕ) (routes : List Route) (own : List ℕ) → HoldsTrips n.trips routes
        → ((r : ℕ) (route : Route) → slice_get routes r ≡ Some route → IsRoute (length own) route)
        → ((u : StopNo) → Contains us u → OwnFrom routes (z + n.buffer) own u)
        → ((x : StopNo) → own_at own x < never → IsOwnOfAny routes (z + n.buffer) us x.0 (own_at own x))
        → OwnStands n us z (own_at own) }
{}

/// Boarding first rides from all stops that are walked to before a second, walking on and boarding second rides closes the
/// labels again.
pub fn passes_close()
    ensures { (n : Network) (q : NodeNo) (z g h : ℕ) (routes : List Route) (foot foot_row : List ℕ) (rows : Rows) (k : Kept)
        (first_rows : List (List ℕ)) (first walked : List ℕ) (ready boarded : List Ready) (held : List (List Held)) (best : List Second)
        → ArePartsOf n q (parts_of routes foot foot_row rows) → AreRowsOf n rows → length first ≡ length n.stops
        → FirstGoes routes foot z k.first_rows first_rows k.first first
        → ((x : ℕ) → x < length n.stops → z + slice_index foot x < g → IsStopBoarded routes (z + slice_index foot x + n.buffer) first_rows x)
        → WalkGoes rows foot_row z first k.walked walked k.ready ready → ((x : ℕ) → x < length first → last_walked walked x ≤ slice_index first x)
        → RideGoes routes foot z rows.places n.buffer first ready k.boarded boarded k.held held k.best best
        → ((y : StopNo) → y.0 < length n.stops → IsBoardedLow rows.places first ready (ready_at boarded y.0) y)
        → IsClosed n (parts_of routes foot foot_row rows) z 0 0 k
        → IsClosed n (parts_of routes foot foot_row rows) z g h (with_rides (with_walks k first_rows first walked ready) boarded held best) }
{}

/// Boarding first rides and walking on leaves what is real, and so are the labels with which stops may be boarded then.
pub fn walks_real()
    ensures real { (n : Network) (q : NodeNo) (z : ℕ) (routes : List Route) (foot foot_row : List ℕ) (rows : Rows) (k : Kept)
        (first_rows : List (List ℕ)) (first walked : List ℕ) (ready : List Ready)
        → ArePartsOf n q (parts_of routes foot foot_row rows) → length first ≡ length n.stops
        → FirstGoes routes foot z k.first_rows first_rows k.first first → FirstSound (source_of n q z) routes first_rows first
        → WalkGoes rows foot_row z first k.walked walked k.ready ready
        → IsReal n q z (parts_of routes foot foot_row rows) k → IsReal n q z (parts_of routes foot foot_row rows) (with_walks k first_rows first walked ready) }
    ensures labels { (n : Network) (q : NodeNo) (z : ℕ) (routes : List Route) (foot foot_row : List ℕ) (rows : Rows) (k : Kept)
        → IsNetwork n → length k.first ≡ length n.stops → IsReal n q z (parts_of routes foot foot_row rows) k
        → AreReal (source_of n q z) rows.places k.first k.ready }
{}

/// Boarding second rides with real labels leaves what is real.
pub fn rides_real()
    ensures { (n : Network) (q : NodeNo) (z : ℕ) (routes : List Route) (foot foot_row : List ℕ) (rows : Rows) (k : Kept)
        (boarded : List Ready) (held : List (List Held)) (best : List Second)
        → AreReal (source_of n q z) rows.places k.first k.ready
        → RideGoes routes foot z rows.places n.buffer k.first k.ready k.boarded boarded k.held held k.best best → SecondSound (source_of n q z) routes held best
        → IsReal n q z (parts_of routes foot foot_row rows) k → IsReal n q z (parts_of routes foot foot_row rows) (with_rides k boarded held best) }
{}

/// What is real at a second is so at every earlier one.
pub fn real_last()
    ensures { (n : Network) (q : NodeNo) (z z' : ℕ) (routes : List Route) (foot foot_row : List ℕ) (rows : Rows) (k : Kept)
        → z' ≤ z → IsReal n q z (parts_of routes foot foot_row rows) k → IsReal n q z' (parts_of routes foot foot_row rows) k }
{}

/// Where all rides are left within a day, and first rides were boarded at all stops that are walked to before a second, a pair
/// that the labels of a start say is needed of a second ride left before that second is a needed walk; and they say so of each
/// needed walk, at the stop where its candidate ends, as soon as the start's own stops were boarded.
pub fn labels_read()
    ensures needed { (n : Network) (us : List StopNo) (q : NodeNo) (z g : ℕ) (routes : List Route) (foot foot_row : List ℕ) (rows : Rows) (own : List ℕ) (k : Kept) → IsNetwork n
        → ((trip : TripNo) (i : ℕ) (call : Call) → HasCall n trip i call → call.arr ≤ last_second)
        → ArePartsOf n q (parts_of routes foot foot_row rows) → AreRowsOf n rows → ((u : StopNo) → Contains us u → node_of n u ≡ q) → OwnStands n us z (own_at own)
        → IsClosed n (parts_of routes foot foot_row rows) z g (1 + last_second) k → IsSound n q z (parts_of routes foot foot_row rows) k
        → (x y : StopNo) → HasRead rows foot z g own k.boarded k.best (length rows.places) x y → IsNeeded n us z x y }
    ensures read { (n : Network) (us : List StopNo) (q : NodeNo) (z g : ℕ) (routes : List Route) (foot foot_row : List ℕ) (rows : Rows) (own : List ℕ) (k : Kept) → IsNetwork n
        → ((trip : TripNo) (i : ℕ) (call : Call) → HasCall n trip i call → call.arr ≤ last_second)
        → ArePartsOf n q (parts_of routes foot foot_row rows) → AreRowsOf n rows → ((u : StopNo) → Contains us u → node_of n u ≡ q) → OwnStands n us z (own_at own)
        → IsClosed n (parts_of routes foot foot_row rows) z g (1 + last_second) k → z < g → IsSound n q z (parts_of routes foot foot_row rows) k
        → (x y : StopNo) (d : IsNeeded n us z x y) → IsReadOf rows foot z own k.boarded k.best d.v d.piece.off2.arr x y }
{}
