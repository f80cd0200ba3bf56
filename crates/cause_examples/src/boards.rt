//! What a station shows of its departures.

ghost use Rattle.std.specs.Prelude.{◌≡◌, [], ◌∷◌, true, false};
ghost use Rattle.delay_model.specs.declared.messages.Message.TheVariants.{Cancel};
ghost use Rattle.delay_model.specs.After.{after_messages};
ghost use Rattle.board_laws.specs.Boards.{board};
ghost use Rattle.model_examples.specs.TwoTrains.{alone, at_b1, clock, network, opts, platform_b1, platform_b2, start, station_b, stop_a, stop_c, stop_d, t2_by};
ghost use Rattle.cause_examples.specs.BoardRows.{departs, over_midnight};

/// From 08:30 the station B shows both trains, each at its platform, whichever place of the station
/// is asked for; the train 0 goes to C and the train 1 to D. A board of one row shows the first.
pub fn departures_of_a_station()
    ensures station { board (network opts) (start opts) station_b (clock 8 30 0) 5
        ≡ departs (clock 8 32 0) 0 1 (clock 8 32 0) platform_b1 stop_c
        ∷ departs (clock 8 36 0) 1 0 (clock 8 36 0) platform_b2 stop_d ∷ [] }
    ensures one { board (network opts) (start opts) platform_b2 (clock 8 30 0) 1
        ≡ departs (clock 8 32 0) 0 1 (clock 8 32 0) platform_b1 stop_c ∷ [] }
    ensures at_the_second { board (network opts) (start opts) platform_b1 (clock 8 36 0) 5
        ≡ departs (clock 8 36 0) 1 0 (clock 8 36 0) platform_b2 stop_d ∷ [] }
    ensures later { board (network opts) (start opts) platform_b1 (clock 8 36 1) 5 ≡ [] }
    ensures last_stop { board (network opts) (start opts) stop_d (clock 8 0 0) 5 ≡ [] }
{}

/// Departures stand by the time at which they take place: a train that is 7 minutes late stands
/// after one that does not wait for it.
pub fn departures_by_their_times()
    ensures { board (network opts) (after_messages (start opts) (at_b1 (clock 8 38 1) ∷ []))
        station_b (clock 8 30 0) 5
        ≡ departs (clock 8 36 0) 1 0 (clock 8 36 0) platform_b2 stop_d
        ∷ departs (clock 8 32 0) 0 1 (clock 8 39 1) platform_b1 stop_c ∷ [] }
{}

/// A train that does not run from B to C is not shown at B, and at A it goes to B. Where it does
/// not run from A to B, it is shown at B alone.
pub fn departures_of_a_cancelled_train()
    ensures not_on { board (network opts) (after_messages (start opts) (Cancel 0 1 2 ∷ []))
        station_b (clock 8 30 0) 5
        ≡ departs (clock 8 36 0) 1 0 (clock 8 36 0) platform_b2 stop_d ∷ [] }
    ensures to_b { board (network opts) (after_messages (start opts) (Cancel 0 1 2 ∷ []))
        stop_a (clock 8 0 0) 5 ≡ departs (clock 8 0 0) 0 0 (clock 8 0 0) stop_a platform_b1 ∷ [] }
    ensures not_at_a { board (network opts) (after_messages (start opts) (Cancel 0 0 1 ∷ []))
        stop_a (clock 8 0 0) 5 ≡ [] }
    ensures from_b { board (network opts) (after_messages (start opts) (Cancel 0 0 1 ∷ []))
        station_b (clock 8 30 0) 1
        ≡ departs (clock 8 32 0) 0 1 (clock 8 32 0) platform_b1 stop_c ∷ [] }
{}

/// From midnight on a board shows the trains of both days, and no more than there are.
pub fn departures_over_midnight()
    ensures { board (network opts) over_midnight station_b (clock 24 0 0) 5
        ≡ departs (clock 24 2 0) 0 1 (clock 24 2 0) platform_b1 stop_d
        ∷ departs (clock 24 17 0) 1 1 (clock 24 17 0) platform_b1 stop_d ∷ [] }
{}

/// A departure that nobody may board is not shown.
pub fn departures_that_nobody_may_board()
    ensures shown { board (network opts) (alone (t2_by true true)) station_b (clock 8 0 0) 5
        ≡ departs (clock 8 36 0) 0 0 (clock 8 36 0) platform_b2 stop_d ∷ [] }
    ensures not_shown { board (network opts) (alone (t2_by false true)) station_b (clock 8 0 0) 5
        ≡ [] }
{}
