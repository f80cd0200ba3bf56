//! What kinds of places a feed knows.

ghost use Rattle.std.specs.Prelude.{◌≡◌};
ghost use Rattle.mt_base.specs.Places.{is_platform, is_station, is_platform_or_station};

/// What kind of place a row of `stops.txt` is: its `location_type` (GTFS Schedule, stops.txt).
#[derive(Clone, Copy, Debug, PartialEq, Eq)]
pub enum PlaceKind {
    /// 0 or empty: a stop or platform, where trains call.
    Platform,

    /// 1: a station, which can be the parent of stops and platforms.
    Station,

    /// 2: an entrance or exit.
    Entrance,

    /// 3: a generic node.
    GenericNode,

    /// 4: a boarding area.
    BoardingArea,
}

impl PlaceKind {
    /// Whether it is a stop or platform, where trains call.
    pub fn is_platform(self) -> bool
        ensures { result ≡ is_platform self }
    {
        matches!(self, PlaceKind::Platform)
    }

    /// Whether it is a station.
    pub fn is_station(self) -> bool
        ensures { result ≡ is_station self }
    {
        matches!(self, PlaceKind::Station)
    }

    /// Whether it is a stop, platform or station, where a journey can begin or end.
    pub fn is_platform_or_station(self) -> bool
        ensures { result ≡ is_platform_or_station self }
    {
        matches!(self, PlaceKind::Platform | PlaceKind::Station)
    }
}
