//! Laws of the lines.

ghost use Rattle.std.specs.Prelude.{◌≡◌, ℕ, ◌+◌, List, ◌≤◌, true, false, Some, Ok, Err};
ghost use Rattle.mt_base.specs.Civil.{IsCivil};
ghost use Rattle.message_reader.specs.declared.bad_line.BadLine.TheVariants.{Shape};
ghost use Rattle.message_reader.specs.declared.check_lines.CheckLine.TheVariants as checks;
ghost use Rattle.message_reader.specs.declared.claims.Claim.{Claim as AClaim};
ghost use Rattle.message_reader.specs.declared.wire.Wire.{Wire as AWire};
ghost use Rattle.message_reader.specs.declared.wire.WireQuery.{WireQuery as AQuery};
ghost use Rattle.message_reader.specs.declared.wire.WireTime.{WireTime as ATime};
ghost use Rattle.message_reader.specs.declared.wire.Line.TheVariants.{Message, Query};
ghost use Rattle.mt_base.specs.Texts.{seconds_of, date_of};
ghost use Rattle.message_reader.specs.CheckLines.{is_claim_in, as_check_line, check_said, check_line_of};
ghost use Rattle.message_reader.specs.Lines.{value_of, said_by_value, line_of};
ghost use Rattle.message_reader.specs.ResolvedQueries.{stop_or_station_named, query_resolved};
ghost use Rattle.message_reader.specs.Spelled.{time_text, date_text, object_of, query_object, IsVersion, CanBeSaidIn, HasLabels};
ghost use Rattle.message_reader.specs.Claims.{claim_time};
ghost use Rattle.message_reader.specs.SpelledClaims.{time_on_day, claim_object, IsOnDay, CanBeClaimed};
ghost use Rattle.message_reader.specs.Wires.{IsProper};
ghost use Rattle.schedule_build.specs.Directory.{Names, day_named, base_of};

/// Every time of day up to 99:59:59 is read from its text.
pub fn times_are_read_back()
    ensures { (s : ℕ) → s ≤ 359999 → seconds_of (time_text s) ≡ Some s }
{}

/// Every civil date is read from its eight digits.
pub fn dates_are_read_back()
    ensures { (date : ℕ) → IsCivil date → date_of (date_text date) ≡ Some date }
{}

/// Every message with civil dates, times up to 99:59:59 and, for an extra train, two calls, is read
/// from the object that says it, in version 1 and 2; corrections and withdrawals in version 2.
pub fn messages_are_read_back()
    ensures { (v : ℕ) (w : AWire) → CanBeSaidIn v w → IsProper w → HasLabels w
        → said_by_value (object_of v w) ≡ Ok (Message w) }
{}

/// Every query at a time up to 99:59:59 of a civil date is read from the object that asks it, in
/// version 1 and 2.
pub fn queries_are_read_back()
    ensures { (v : ℕ) (client from to : List ℕ) (date secs : ℕ) → IsVersion v → IsCivil date
        → secs ≤ 359999
        → said_by_value (query_object v client from to date secs) ≡ Ok (Query (record {
          client = client;
          from = from;
          to = to;
          time = Some (record { date = date; secs = secs });
        })) }
{}

/// A query from one stop or station to another, at a time of a loaded day, is the query between
/// these at that time.
pub fn queries_are_resolved()
    ensures { (names : Names) (q : AQuery) (time : ATime) (from_stop to_stop day : ℕ)
        → q.time ≡ Some time → stop_or_station_named names q.from ≡ Some from_stop
        → stop_or_station_named names q.to ≡ Some to_stop → day_named names time.date ≡ Some day
        → query_resolved names q ≡ Ok (record {
          day = day;
          query = record {
            from_stop = from_stop;
            to_stop = to_stop;
            time = base_of names day + time.secs;
          };
        }) }
{}

/// A line whose type is not `claim` says to who checks claims what it says to every command.
pub fn lines_are_the_same_to_check()
    ensures { (names : Names) (bytes : List ℕ) → is_claim_in (value_of bytes) ≡ false
        → check_line_of names bytes ≡ as_check_line (line_of bytes) }
{}

/// A line whose type is `claim` is bad to every other command: it has none of their types.
pub fn claims_are_no_other_lines()
    ensures { (bytes : List ℕ) → is_claim_in (value_of bytes) ≡ true
        → line_of bytes ≡ Err Shape }
{}

/// A time that is not before the base of a service day is read from its text on that day, as claims
/// have it.
pub fn claim_times_are_read_back()
    ensures { (names : Names) (day time : ℕ) → IsOnDay names day time
        → claim_time names day (time_on_day names day time) ≡ Some time }
{}

/// Every claim whose day, places and stops have names of their own, and whose times have texts, is
/// read from the object that makes it, in version 1 and 2.
pub fn claims_are_read_back()
    ensures { (names : Names) (v : ℕ) (client : List ℕ) (c : AClaim) → IsVersion v
        → CanBeClaimed names c
        → check_said names (claim_object names v client c) ≡ Ok (checks.Claim c) }
{}
