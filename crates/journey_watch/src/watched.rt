//! A journey that is watched.

use mt_base::certificates::CertRide;
use mt_base::journeys::Query;
use mt_base::numbers::Day;
use mt_base::rows::Rows;
use standing_laws::Standing;

/// A journey that is watched, with what was last told of it.
#[derive(Drop)]
pub struct Watched {
    /// The number under which it is watched.
    pub id: u64,
    /// The service day of its query, from whose base its times are shown.
    pub day: Day,
    /// Its query.
    pub query: Query,
    /// Its rides, in their order.
    pub rides: Rows<CertRide>,
    /// The standing that is kept of it: the one with which it was first watched, or the one that
    /// was told last.
    pub standing: Standing,
}
