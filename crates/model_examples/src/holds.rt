//! How delays spread along a train and over a connection.

ghost use Rattle.std.specs.Prelude.{◌≡◌, List, [], ◌∷◌, None, Some};
ghost use Rattle.delay_model.specs.declared.state.EdgeKind.TheVariants.{Planned};
ghost use Rattle.delay_model.specs.declared.messages.Message.TheVariants.{Forecast};
ghost use Rattle.delay_model.specs.Edges.{transfer};
ghost use Rattle.delay_model.specs.Events.{departure_of};
ghost use Rattle.delay_model.specs.After.{after_messages};
ghost use Rattle.model_examples.specs.TwoTrains.{clock, start, times, changed_counts, row, platform_b1, platform_b2, alone, regular, opts, with_slack, network, network_by, waits_for, stop_d, station_b, feeder, fed, edge_at_b, edge_between, for_any, later_at_b, times_after, counts_of, Accepts, at_b1, departure};

/// Without messages every event takes place at its scheduled time.
pub fn no_delay()
    ensures { times_after opts [] ≡ clock 8 0 0 ∷ clock 8 30 0 ∷ clock 8 32 0 ∷ clock 9 0 0
        ∷ clock 8 36 0 ∷ clock 9 10 0 ∷ [] }
{}

/// A train is held for a late feeder: it departs when the change is done.
pub fn hold_within_the_wait()
    ensures accepted { Accepts opts (at_b1 (clock 8 36 0) ∷ []) }
    ensures changed { counts_of opts (at_b1 (clock 8 36 0) ∷ []) ≡ 5 ∷ [] }
    ensures times { times_after opts (at_b1 (clock 8 36 0) ∷ []) ≡ clock 8 0 0 ∷ clock 8 36 0
        ∷ clock 8 37 0 ∷ clock 9 5 0 ∷ clock 8 39 0 ∷ clock 9 13 0 ∷ [] }
{}

/// A feeder that is late by just as much as the wait allows is still waited for.
pub fn hold_at_the_limit()
    ensures accepted { Accepts opts (at_b1 (clock 8 38 0) ∷ []) }
    ensures changed { counts_of opts (at_b1 (clock 8 38 0) ∷ []) ≡ 5 ∷ [] }
    ensures times { times_after opts (at_b1 (clock 8 38 0) ∷ []) ≡ clock 8 0 0 ∷ clock 8 38 0
        ∷ clock 8 39 0 ∷ clock 9 7 0 ∷ clock 8 41 0 ∷ clock 9 15 0 ∷ [] }
{}

/// One second more, and the train does not wait at all: a later feeder makes an earlier train.
pub fn later_feeder_earlier_train()
    ensures accepted { Accepts opts (at_b1 (clock 8 38 0) ∷ at_b1 (clock 8 38 1) ∷ []) }
    ensures changed { counts_of opts (at_b1 (clock 8 38 0) ∷ at_b1 (clock 8 38 1) ∷ [])
        ≡ 5 ∷ 5 ∷ [] }
    ensures times { times_after opts (at_b1 (clock 8 38 0) ∷ at_b1 (clock 8 38 1) ∷ [])
        ≡ clock 8 0 0 ∷ clock 8 38 1 ∷ clock 8 39 1 ∷ clock 9 7 1 ∷ clock 8 36 0 ∷ clock 9 10 0
        ∷ [] }
    ensures alone { counts_of opts (at_b1 (clock 8 38 1) ∷ []) ≡ 3 ∷ [] }
{}

/// A train that departs late catches up some of its running time, and reaches its connection within
/// the wait.
pub fn hold_with_slack()
    ensures accepted { Accepts with_slack (Forecast (departure 0 0) (clock 8 10 0) ∷ []) }
    ensures changed { counts_of with_slack (Forecast (departure 0 0) (clock 8 10 0) ∷ []) ≡ 6 ∷ [] }
    ensures times { times_after with_slack (Forecast (departure 0 0) (clock 8 10 0) ∷ [])
        ≡ clock 8 10 0 ∷ clock 8 37 54 ∷ clock 8 38 54 ∷ clock 9 4 57 ∷ clock 8 40 54
        ∷ clock 9 12 32 ∷ [] }
{}

/// A forecast before the schedule makes an arrival earlier, but no earlier than the train can be
/// there.
pub fn early_arrival()
    ensures accepted { Accepts with_slack (at_b1 (clock 8 28 0) ∷ at_b1 (clock 8 20 0) ∷ []) }
    ensures changed { counts_of with_slack (at_b1 (clock 8 28 0) ∷ at_b1 (clock 8 20 0) ∷ [])
        ≡ 1 ∷ 1 ∷ [] }
    ensures as_expected { times_after with_slack (at_b1 (clock 8 28 0) ∷ [])
        ≡ clock 8 0 0 ∷ clock 8 28 0 ∷ clock 8 32 0 ∷ clock 9 0 0 ∷ clock 8 36 0 ∷ clock 9 10 0
        ∷ [] }
    ensures at_full_speed { times_after with_slack (at_b1 (clock 8 20 0) ∷ [])
        ≡ clock 8 0 0 ∷ clock 8 27 54 ∷ clock 8 32 0 ∷ clock 9 0 0 ∷ clock 8 36 0 ∷ clock 9 10 0
        ∷ [] }
{}

/// No forecast makes a departure earlier than its schedule.
pub fn no_early_departure()
    ensures accepted { Accepts opts (Forecast (departure 0 0) (clock 7 50 0) ∷ []) }
    ensures changed { counts_of opts (Forecast (departure 0 0) (clock 7 50 0) ∷ []) ≡ 0 ∷ [] }
{}

/// A connection is planned from a departure just when the change is done up to one `window` seconds
/// later.
pub fn ends_of_the_window()
    ensures lower { transfer (network (record opts { change = 360 })) None feeder fed
        ≡ edge_at_b 360 (Planned 300) ∷ [] }
    ensures below { transfer (network (record opts { change = 361 })) None feeder fed ≡ [] }
    ensures upper { transfer (network (record opts { window = 180 })) None feeder fed
        ≡ edge_at_b 180 (Planned 300) ∷ [] }
    ensures above { transfer (network (record opts { window = 179 })) None feeder fed ≡ [] }
{}

/// The first rule that fits decides how long a train waits, and one that does not wait has no
/// planned connection.
pub fn first_rule_decides()
    ensures one_second { transfer (network_by opts [] (waits_for 1 ∷ [])) None feeder fed
        ≡ edge_at_b 180 (Planned 1) ∷ [] }
    ensures no_wait { transfer (network_by opts [] (waits_for 0 ∷ [])) None feeder fed ≡ [] }
    ensures first { transfer (network_by opts [] (waits_for 0 ∷ waits_for 300 ∷ [])) None feeder fed
        ≡ [] }
    ensures no_rule { transfer (network_by opts [] []) None feeder fed ≡ [] }
{}

/// A rule for a stop holds where the connecting train departs from that stop or from a platform of
/// that station.
pub fn rule_of_a_station()
    ensures station { transfer (network_by opts [] (record (waits_for 300) { stop = Some station_b }
        ∷ [])) None feeder fed ≡ edge_at_b 180 (Planned 300) ∷ [] }
    ensures elsewhere { transfer (network_by opts [] (record (waits_for 300) { stop = Some stop_d }
        ∷ waits_for 60 ∷ [])) None feeder fed ≡ edge_at_b 180 (Planned 60) ∷ [] }
    ensures other_route { transfer
        (network_by opts [] (record (waits_for 300) { feeder = Some 1 } ∷ [])) None feeder fed
        ≡ [] }
{}

/// Of two trains of one route that stop at one platform one may wait for the other, but no train
/// waits for itself.
pub fn no_connection_to_itself()
    ensures another { transfer (network_by opts [] (for_any 300 ∷ [])) None feeder
        (departure_of 1 0 later_at_b) ≡ edge_between feeder (departure_of 1 0 later_at_b) 180
        (Planned 300) ∷ [] }
    ensures itself { transfer (network_by opts [] (for_any 300 ∷ [])) None feeder
        (departure_of 0 0 later_at_b) ≡ [] }
{}

/// The change time decides whether a train is held, and how long: too long a change is not planned,
/// the platforms come before the station, and where a row forbids the change nobody waits.
pub fn change_rows_and_holds()
    ensures too_long_changed { changed_counts
        (network_by opts (row station_b station_b 2 (Some 420) ∷ []) (waits_for 300 ∷ []))
        (start opts) (at_b1 (clock 8 36 0) ∷ []) ≡ 3 ∷ [] }
    ensures too_long { times (network_by opts (row station_b station_b 2 (Some 420) ∷ [])
        (waits_for 300 ∷ [])) (after_messages (start opts) (at_b1 (clock 8 36 0) ∷ []))
        ≡ clock 8 0 0 ∷ clock 8 36 0 ∷ clock 8 37 0 ∷ clock 9 5 0 ∷ clock 8 36 0 ∷ clock 9 10 0
        ∷ [] }
    ensures platforms_changed { changed_counts
        (network_by opts (row station_b station_b 3 None ∷ row platform_b1 platform_b2 2 (Some 120)
        ∷ []) (waits_for 300 ∷ [])) (start opts) (at_b1 (clock 8 36 0) ∷ []) ≡ 5 ∷ [] }
    ensures platforms { times (network_by opts (row station_b station_b 3 None
        ∷ row platform_b1 platform_b2 2 (Some 120) ∷ []) (waits_for 300 ∷ []))
        (after_messages (start opts) (at_b1 (clock 8 36 0) ∷ [])) ≡ clock 8 0 0 ∷ clock 8 36 0
        ∷ clock 8 37 0 ∷ clock 9 5 0 ∷ clock 8 38 0 ∷ clock 9 12 0 ∷ [] }
    ensures forbidden_changed { changed_counts
        (network_by opts (row platform_b1 platform_b2 3 None ∷ []) (waits_for 300 ∷ []))
        (start opts) (at_b1 (clock 8 36 0) ∷ []) ≡ 3 ∷ [] }
    ensures forbidden { times (network_by opts (row platform_b1 platform_b2 3 None ∷ [])
        (waits_for 300 ∷ [])) (after_messages (start opts) (at_b1 (clock 8 36 0) ∷ []))
        ≡ clock 8 0 0 ∷ clock 8 36 0 ∷ clock 8 37 0 ∷ clock 9 5 0 ∷ clock 8 36 0 ∷ clock 9 10 0
        ∷ [] }
{}

/// A delay gets shorter along the train: of ten minutes to the next stop 42 seconds can be caught
/// up.
pub fn delay_gets_shorter()
    ensures one_minute_changed { changed_counts (network with_slack) (alone (regular (clock 4 0 0)))
        (at_b1 (clock 4 12 0) ∷ []) ≡ 4 ∷ [] }
    ensures one_minute { times (network with_slack)
        (after_messages (alone (regular (clock 4 0 0))) (at_b1 (clock 4 12 0) ∷ []))
        ≡ clock 4 1 0 ∷ clock 4 12 0 ∷ clock 4 13 0 ∷ clock 4 22 18 ∷ clock 4 23 18 ∷ clock 4 33 0
        ∷ [] }
    ensures two_minutes_changed { changed_counts (network with_slack)
        (alone (regular (clock 4 1 0))) (at_b1 (clock 4 14 0) ∷ []) ≡ 5 ∷ [] }
    ensures two_minutes { times (network with_slack)
        (after_messages (alone (regular (clock 4 1 0))) (at_b1 (clock 4 14 0) ∷ []))
        ≡ clock 4 2 0 ∷ clock 4 14 0 ∷ clock 4 15 0 ∷ clock 4 24 18 ∷ clock 4 25 18 ∷ clock 4 34 36
        ∷ [] }
{}
