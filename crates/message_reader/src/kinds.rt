//! The types of lines, and the versions that have them.

ghost use Rattle.std.specs.Prelude.{◌≡◌};
ghost use Rattle.message_reader.specs.Kinds.{kind_of, has_version};

/// The type of a line.
#[derive(Clone, Copy)]
pub(crate) enum Kind {
    Forecast,
    Report,
    Correct,
    Withdraw,
    Cancel,
    Reroute,
    Extra,
    Keep,
    Drop,
    Rule,
    Query,
    Flush,
}

/// The type that has this name.
#[tactic(auto, unfolding(crate::specs::Kinds::kind_of))]
pub(crate) fn kind_named(name: &str) -> Option<Kind>
    ensures { result ≡ kind_of name.now }
{
    match name {
        "forecast" => Some(Kind::Forecast),
        "report" => Some(Kind::Report),
        "correct" => Some(Kind::Correct),
        "withdraw" => Some(Kind::Withdraw),
        "cancel" => Some(Kind::Cancel),
        "reroute" => Some(Kind::Reroute),
        "extra" => Some(Kind::Extra),
        "keep" => Some(Kind::Keep),
        "drop" => Some(Kind::Drop),
        "rule" => Some(Kind::Rule),
        "query" => Some(Kind::Query),
        "flush" => Some(Kind::Flush),
        _ => None,
    }
}

/// Whether a line of this version can have this type.
#[tactic(auto, unfolding(crate::specs::Kinds::has_version))]
pub(crate) fn has_version(kind: Kind, version: u64) -> bool
    ensures { result ≡ has_version kind version }
{
    match kind {
        Kind::Correct | Kind::Withdraw => version == 2,
        _ => version == 1 || version == 2,
    }
}
