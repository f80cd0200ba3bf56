//! How long a change takes.

ghost use Rattle.std.specs.Prelude.{◌≡◌, List, [], ◌∷◌, None, Some};
ghost use Rattle.delay_model.specs.Changes.{change};
ghost use Rattle.model_examples.specs.TwoTrains.{stops, stop_a, station_b, platform_b1, platform_b2, stop_c, row};

/// Without a row a change within a station takes the default, and between stations none is
/// possible.
pub fn change_without_a_row()
    ensures platforms { change stops [] 180 platform_b1 platform_b2 ≡ Some 180 }
    ensures platform { change stops [] 180 platform_b1 platform_b1 ≡ Some 180 }
    ensures station { change stops [] 180 platform_b1 station_b ≡ Some 180 }
    ensures stations { change stops [] 180 stop_a stop_c ≡ None }
{}

/// A row for the two places decides before one for the first place and the second's station, that
/// before one for the first's station and the second place, and that before one for the two
/// stations.
pub fn which_row_decides()
    ensures places { change stops (row station_b station_b 2 (Some 4) ∷ row station_b platform_b2 2
        (Some 3) ∷ row platform_b1 station_b 2 (Some 2) ∷ row platform_b1 platform_b2 2 (Some 1)
        ∷ []) 180 platform_b1 platform_b2 ≡ Some 1 }
    ensures to_station { change stops (row station_b station_b 2 (Some 4)
        ∷ row station_b platform_b2 2 (Some 3) ∷ row platform_b1 station_b 2 (Some 2) ∷ []) 180
        platform_b1 platform_b2 ≡ Some 2 }
    ensures from_station { change stops (row station_b station_b 2 (Some 4)
        ∷ row station_b platform_b2 2 (Some 3) ∷ []) 180 platform_b1 platform_b2 ≡ Some 3 }
    ensures stations { change stops (row station_b station_b 2 (Some 4) ∷ []) 180 platform_b1
        platform_b2 ≡ Some 4 }
    ensures first_in_file { change stops (row platform_b1 platform_b2 2 (Some 5)
        ∷ row platform_b1 platform_b2 2 (Some 6) ∷ []) 180 platform_b1 platform_b2 ≡ Some 5 }
    ensures one_way { change stops (row platform_b2 platform_b1 2 (Some 5) ∷ []) 180 platform_b1
        platform_b2 ≡ Some 180 }
{}

/// What the types of a row say.
pub fn types_of_rows()
    ensures seconds { change stops (row stop_a stop_c 2 (Some 90) ∷ []) 180 stop_a stop_c
        ≡ Some 90 }
    ensures at_least_one { change stops (row stop_a stop_c 2 (Some 0) ∷ []) 180 stop_a stop_c
        ≡ Some 1 }
    ensures no_seconds { change stops (row stop_a stop_c 2 None ∷ []) 180 stop_a stop_c ≡ Some 180 }
    ensures default { change stops (row stop_a stop_c 0 (Some 90) ∷ []) 180 stop_a stop_c
        ≡ Some 180 }
    ensures forbidden { change stops (row platform_b1 platform_b2 3 None ∷ []) 180 platform_b1
        platform_b2 ≡ None }
    ensures passed_over { change stops (row platform_b1 platform_b2 4 None
        ∷ row platform_b1 platform_b2 2 (Some 60) ∷ []) 180 platform_b1 platform_b2 ≡ Some 60 }
{}
