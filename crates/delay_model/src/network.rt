//! What no message changes.

use mt_base::options::Opts;
use mt_base::rows::Rows;
use mt_base::tables::{RuleRow, StopRow, TransferRow};

/// The stops, the change times between them, the waiting rules and the options. No message changes
/// any of them.
#[derive(Drop)]
pub struct Network {
    /// The stops and stations, by number.
    pub stops: Rows<StopRow>,
    /// The rows of `transfers.txt`, in their order.
    pub transfers: Rows<TransferRow>,
    /// The rows of `waiting_rules.txt`, in their order.
    pub rules: Rows<RuleRow>,
    /// The options of the command.
    pub opts: Opts,
}
