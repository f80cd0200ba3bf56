//! The columns that the tables are read by.

ghost use Rattle.std.specs.Prelude.{◌≡◌};
ghost use Rattle.gtfs_tables.specs.Columns.{column_name};

/// A column that a table needs or may have.
#[derive(Clone, Copy, Debug, PartialEq, Eq)]
pub(crate) enum Column {
    /// `stop_id`.
    StopId,

    /// `location_type`.
    LocationType,

    /// `parent_station`.
    ParentStation,

    /// `route_id`.
    RouteId,

    /// `service_id`.
    ServiceId,

    /// `trip_id`.
    TripId,

    /// `arrival_time`.
    ArrivalTime,

    /// `departure_time`.
    DepartureTime,

    /// `stop_sequence`.
    StopSequence,

    /// `pickup_type`.
    PickupType,

    /// `drop_off_type`.
    DropOffType,

    /// `monday`.
    Monday,

    /// `tuesday`.
    Tuesday,

    /// `wednesday`.
    Wednesday,

    /// `thursday`.
    Thursday,

    /// `friday`.
    Friday,

    /// `saturday`.
    Saturday,

    /// `sunday`.
    Sunday,

    /// `start_date`.
    StartDate,

    /// `end_date`.
    EndDate,

    /// `date`.
    Date,

    /// `exception_type`.
    ExceptionType,

    /// `from_stop_id`.
    FromStopId,

    /// `to_stop_id`.
    ToStopId,

    /// `transfer_type`.
    TransferType,

    /// `min_transfer_time`.
    MinTransferTime,

    /// `from_route_id`.
    FromRouteId,

    /// `to_route_id`.
    ToRouteId,

    /// `from_trip_id`.
    FromTripId,

    /// `to_trip_id`.
    ToTripId,

    /// `feeder_route_id`.
    FeederRouteId,

    /// `connecting_route_id`.
    ConnectingRouteId,

    /// `max_wait`.
    MaxWait,
}

impl Column {
    /// Its name, as a header writes it.
    pub fn name(&self) -> &'static str
        ensures { result.now ≡ column_name self.now }
    {
        match self {
            Column::StopId => "stop_id",
            Column::LocationType => "location_type",
            Column::ParentStation => "parent_station",
            Column::RouteId => "route_id",
            Column::ServiceId => "service_id",
            Column::TripId => "trip_id",
            Column::ArrivalTime => "arrival_time",
            Column::DepartureTime => "departure_time",
            Column::StopSequence => "stop_sequence",
            Column::PickupType => "pickup_type",
            Column::DropOffType => "drop_off_type",
            Column::Monday => "monday",
            Column::Tuesday => "tuesday",
            Column::Wednesday => "wednesday",
            Column::Thursday => "thursday",
            Column::Friday => "friday",
            Column::Saturday => "saturday",
            Column::Sunday => "sunday",
            Column::StartDate => "start_date",
            Column::EndDate => "end_date",
            Column::Date => "date",
            Column::ExceptionType => "exception_type",
            Column::FromStopId => "from_stop_id",
            Column::ToStopId => "to_stop_id",
            Column::TransferType => "transfer_type",
            Column::MinTransferTime => "min_transfer_time",
            Column::FromRouteId => "from_route_id",
            Column::ToRouteId => "to_route_id",
            Column::FromTripId => "from_trip_id",
            Column::ToTripId => "to_trip_id",
            Column::FeederRouteId => "feeder_route_id",
            Column::ConnectingRouteId => "connecting_route_id",
            Column::MaxWait => "max_wait",
        }
    }
}
