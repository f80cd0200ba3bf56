//! A line for who checks claims: a claim, or what a line says to every command.

ghost use Rattle.std.specs.Prelude.{◌≡◌, ◌<◌, ◌^◌, IfOk, length};
ghost use Rattle.serde_json.specs.View.{view};
ghost use Rattle.message_reader.specs.CheckLines.{is_claim, claim_said, line_said, check_said, check_line_of, IsCheckLine};
ghost use Rattle.message_reader.specs.Errors.{Gives, bad_in};
ghost use Rattle.message_reader.specs.Messages.{HasFewItems};

use crate::bad_line::{BadLine, LineError};
use crate::claims::{Claim, read_claim};
use crate::fields::{number_at, text_at};
use crate::lines::{read_value, said};
use crate::wire::Line;
use schedule_build::Directory;
use serde_json::Value;
use std::alloc::Global;

/// What a line says to who checks claims.
#[derive(Drop)]
pub enum CheckLine {
    /// What it says to every command.
    Line(Line),
    /// A claim.
    Claim(Claim),
}

/// Whether the type of an object is `claim`.
fn is_claim(value: &Value) -> bool
    ensures { result ≡ is_claim (view value.now) }
{
    match text_at(value, "type") {
        Some("claim") => true,
        _ => false,
    }
}

/// The claim of an object of this type. `Shape` where its version is neither 1 nor 2.
#[tactic(auto, unfolding(crate::specs::CheckLines::claim_said))]
fn claim_said(alloc: Global, value: &Value, dir: &Directory) -> Result<CheckLine, LineError>
    requires few { HasFewItems (view value.now) }
    ensures exact { Gives bad_in result (claim_said dir.now (view value.now)) }
    ensures kept { IfOk result IsCheckLine }
{
    let version = number_at(value, "v").ok_or(BadLine::Shape)?;
    if version != 1 && version != 2 {
        return Err(LineError::Bad(BadLine::Shape));
    }
    let claim = read_claim(alloc, value, dir)?;
    Ok(CheckLine::Claim(claim))
}

/// What an object says that is no claim.
#[tactic(auto, unfolding(crate::specs::CheckLines::line_said))]
fn line_said(alloc: Global, value: &Value) -> Result<CheckLine, LineError>
    requires few { HasFewItems (view value.now) }
    ensures exact { Gives bad_in result (line_said (view value.now)) }
    ensures kept { IfOk result IsCheckLine }
{
    let line = said(alloc, value)?;
    Ok(CheckLine::Line(line))
}

#[tactic(auto, unfolding(crate::specs::CheckLines::check_said))]
fn check_said(alloc: Global, value: &Value, dir: &Directory) -> Result<CheckLine, LineError>
    requires few { HasFewItems (view value.now) }
    ensures exact { Gives bad_in result (check_said dir.now (view value.now)) }
    ensures kept { IfOk result IsCheckLine }
{
    if is_claim(value) {
        claim_said(alloc, value, dir)
    } else {
        line_said(alloc, value)
    }
}

/// What a line says to who checks claims, or the first fault that holds: that of `read_line`, or of
/// a claim `Shape`, and otherwise `Stop` or `Time`. `OutOfMemory` may come at any line.
#[tactic(auto, unfolding(crate::specs::CheckLines::check_line_of))]
pub fn read_check_line(alloc: Global, bytes: &[u8], dir: &Directory) -> Result<CheckLine, LineError>
    requires few { length bytes.now < 2 ^ 31 }
    ensures exact { Gives bad_in result (check_line_of dir.now bytes.now) }
    ensures kept { IfOk result IsCheckLine }
{
    let value = read_value(alloc, bytes)?;
    check_said(alloc, &value, dir)
}
