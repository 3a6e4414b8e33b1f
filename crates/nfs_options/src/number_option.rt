//! Options whose value is a number within limits, with the message for any other value.

ghost use Rattle.std.specs.Prelude.{◌<◌, ◌^◌, IfErr, IfOk, MatchOption, SomeIff, ⊤, ℕ};
ghost use Rattle.std.specs.Str.Parse.{IsNumeral, digits_value};
ghost use Rattle.nfs_options.specs.CommandLine.{IsMemoryOr, IsNoNumber, IsNumber, SpellsWithin, text_of};

use crate::Declined;
use crate::name::Name;
use clap::error::ErrorKind;
use nfs_core::{LEASE_MAX, LEASE_MIN};
use std::alloc::{AllocError, Global};

/// An option whose value is a number, written in decimal digits without a sign.
#[derive(Clone, Copy)]
pub(crate) struct NumberOption {
    pub(crate) name: &'static str,
    /// The name of the value in the help text.
    pub(crate) value_name: &'static str,
    pub(crate) least: u64,
    pub(crate) most: u64,
    /// The number if the option is absent.
    pub(crate) default: u64,
}

impl NumberOption {
    /// The lease that clients see.
    pub(crate) const LEASE: NumberOption = NumberOption {
        name: "lease",
        value_name: "SECONDS",
        least: LEASE_MIN as u64,
        most: LEASE_MAX as u64,
        default: 90,
    };

    /// The number of the server's run.
    pub(crate) const EPOCH: NumberOption = NumberOption {
        name: "epoch",
        value_name: "NUMBER",
        least: 0,
        most: u32::MAX as u64,
        default: 1,
    };

    /// The number that the option's value gives behind this subcommand, or the default.
    pub(crate) fn number(
        &self,
        alloc: Global,
        subcommand: Name,
        value: Option<&str>,
    ) -> Result<u64, Declined>
        ensures ok { IfOk result
            (IsNumber self.now.least self.now.most self.now.default (text_of value.entry)) }
        ensures err { IfErr result
            (IsMemoryOr (IsNoNumber self.now.least self.now.most (text_of value.entry))) }
    {
        let Some(text) = value else {
            return Ok(self.default);
        };
        match number_within(text, self.least, self.most) {
            Some(number) => Ok(number),
            None => Err(self.refusal(alloc, subcommand, text)),
        }
    }

    /// The number that `number` gives, as a `u32`, if the option's limits fit into a `u32`.
    pub(crate) fn short_number(
        &self,
        alloc: Global,
        subcommand: Name,
        value: Option<&str>,
    ) -> Result<u32, Declined>
        requires most { self.now.most < 2 ^ 32 }
        requires default { self.now.default < 2 ^ 32 }
        ensures ok { IfOk result
            (IsNumber self.now.least self.now.most self.now.default (text_of value.entry)) }
        ensures err { IfErr result
            (IsMemoryOr (IsNoNumber self.now.least self.now.most (text_of value.entry))) }
    {
        let number = self.number(alloc, subcommand, value)?;
        Ok(number as u32)
    }

    // The error for a text that is not a number within the limits.
    fn refusal(&self, alloc: Global, subcommand: Name, text: &str) -> Declined
        ensures { IsMemoryOr ⊤ result }
    {
        match self.message(alloc, text) {
            Ok(message) => {
                let kind = ErrorKind::ValueValidation;
                Declined::usage(alloc, subcommand, kind, message.as_str())
            }
            Err(_) => Declined::Memory,
        }
    }

    fn message(&self, alloc: Global, text: &str) -> Result<String, AllocError> {
        let name = self.name;
        let value_name = self.value_name;
        let least = self.least;
        let most = self.most;
        format!(in alloc;
            "invalid value '{text}' for '--{name} <{value_name}>': not a number from {least} to {most}"
        )
    }
}

// The number that a text gives in decimal digits, with nothing else, if it is from `least` to `most`.
fn number_within(text: &str, least: u64, most: u64) -> Option<u64>
    ensures { MatchOption result ((n : ℕ) → SpellsWithin least most text.now n → ⊥)
        (SpellsWithin least most text.now) }
{
    let number = decimal(text)?;
    if least <= number && number <= most {
        Some(number)
    } else {
        None
    }
}

// The number that a text gives in decimal digits, with nothing else. Unlike `parse`, it accepts no plus sign.
fn decimal(text: &str) -> Option<u64>
    ensures { SomeIff result (IsNumeral 10 text.now × (digits_value 10 text.now < 2 ^ 64))
        (digits_value 10 text.now) }
{
    if text.starts_with('+') {
        return None;
    }
    text.parse::<u64>().ok()
}
