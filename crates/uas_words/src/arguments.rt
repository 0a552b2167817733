//! The arguments of the subcommands.

ghost use Rattle.std.specs.Prelude.{◌≡◌, false};
ghost use Rattle.clap.specs.Words.{rule_of};
ghost use Rattle.uas_words.specs.Subcommands.{flag_rule, log_rule, number_option_rule, number_rule, option_rule, required_rule};

use clap::{Arg, ArgAction};
use std::alloc::Global;

/// The file of a log, which may be left out.
pub(crate) fn log<'a>(alloc: Global, help: &'a str) -> Arg<'a>
    ensures rule { rule_of result ≡ log_rule }
    ensures local { result.global ≡ false }
{
    Arg::new(alloc, "LOG").action(ArgAction::Set).help(help)
}

/// A word that may not be left out.
pub(crate) fn required<'a>(alloc: Global, name: &'a str, help: &'a str) -> Arg<'a>
    ensures rule { rule_of result ≡ required_rule name.entry.now }
    ensures local { result.global ≡ false }
{
    Arg::new(alloc, name)
        .required(true)
        .action(ArgAction::Set)
        .help(help)
}

/// A number from `least` to `most` that may not be left out.
pub(crate) fn number<'a>(
    alloc: Global,
    name: &'a str,
    least: u32,
    most: u32,
    help: &'a str,
) -> Arg<'a>
    ensures rule { rule_of result ≡ number_rule name.entry.now least most }
    ensures local { result.global ≡ false }
{
    Arg::new(alloc, name)
        .required(true)
        .action(ArgAction::Set)
        .value_parser(clap::value_parser!(u32).range(i64::from(least)..=i64::from(most)))
        .help(help)
}

/// An option with a word of this kind behind it.
pub(crate) fn option<'a>(alloc: Global, name: &'a str, value: &'a str, help: &'a str) -> Arg<'a>
    ensures rule { rule_of result ≡ option_rule name.entry.now }
    ensures local { result.global ≡ false }
{
    Arg::new(alloc, name)
        .long(name)
        .value_name(value)
        .action(ArgAction::Set)
        .help(help)
}

/// An option with a number from `least` to `most` behind it.
pub(crate) fn number_option<'a>(
    alloc: Global,
    name: &'a str,
    value: &'a str,
    least: u32,
    most: u32,
    help: &'a str,
) -> Arg<'a>
    ensures rule { rule_of result ≡ number_option_rule name.entry.now least most }
    ensures local { result.global ≡ false }
{
    Arg::new(alloc, name)
        .long(name)
        .value_name(value)
        .action(ArgAction::Set)
        .value_parser(clap::value_parser!(u32).range(i64::from(least)..=i64::from(most)))
        .help(help)
}

/// An option behind which no word stands.
pub(crate) fn flag<'a>(alloc: Global, name: &'a str, help: &'a str) -> Arg<'a>
    ensures rule { rule_of result ≡ flag_rule name.entry.now }
    ensures local { result.global ≡ false }
{
    Arg::new(alloc, name)
        .long(name)
        .action(ArgAction::SetTrue)
        .help(help)
}
