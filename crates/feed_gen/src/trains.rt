//! The stops and times of the trains' calls. Times are seconds from the beginning of the day.

ghost use Rattle.std.specs.Prelude.{◌≡◌, ◌<◌};
ghost use Rattle.feed_gen.specs.Trains.{arrival, departure, forecast_time, stop_of};

// The number of the stop of a call.
pub(crate) fn stop_of(train: u32, call: u32) -> u32
    requires train { train < 100000 }
    requires call { call < 4 }
    ensures { result ≡ stop_of train call }
{
    (7 * train + 10 * call) % 100
}

// When a train is to arrive at a call.
pub(crate) fn arrival(train: u32, call: u32) -> u32
    requires { call < 4 }
    ensures value { result ≡ arrival train call }
    ensures small { result < 100000 }
{
    14_400 + 60 * (train % 1_200) + 660 * call
}

// When it is to depart from there.
pub(crate) fn departure(train: u32, call: u32) -> u32
    requires { call < 4 }
    ensures { result ≡ departure train call }
{
    arrival(train, call) + 60
}

// When the forecast for a train says that it arrives at call 1.
pub(crate) fn forecast_time(train: u32) -> u32
    requires { train < 100000 }
    ensures { result ≡ forecast_time train }
{
    arrival(train, 1) + 60 * ((train + 1) % 16)
}
