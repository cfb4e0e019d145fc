//! The arguments of commands, each as the rule that clap applies to it.

ghost use Rattle.std.specs.Prelude.{◌≡◌, false};
ghost use Rattle.clap.specs.Words.{rule_of};
ghost use Rattle.pact_words.specs.Arguments.{batch_rule, certificate_rule, combine_rule, counts_rule, depth_rule, flag_rule, local_rule, number_operand_rule, number_rule, operand_rule, plans_rule, program_rule, prune_rule, rounds_rule, rows_rule, seed_rule, source_rule, stable_rule, word_rule, workers_rule};

use clap::builder::ValueParser;
use clap::{Arg, ArgAction};
use std::alloc::Global;

pub(crate) fn program<'a>(alloc: Global) -> Arg<'a>
    ensures rule { rule_of result ≡ program_rule }
    ensures local { result.global ≡ false }
{
    operand(alloc, "program")
}

pub(crate) fn certificate<'a>(alloc: Global) -> Arg<'a>
    ensures rule { rule_of result ≡ certificate_rule }
    ensures local { result.global ≡ false }
{
    operand(alloc, "certificate")
}

pub(crate) fn seed<'a>(alloc: Global) -> Arg<'a>
    ensures rule { rule_of result ≡ seed_rule }
    ensures local { result.global ≡ false }
{
    number_operand(alloc, "seed", 0, 2_147_483_646)
}

pub(crate) fn rows<'a>(alloc: Global) -> Arg<'a>
    ensures rule { rule_of result ≡ rows_rule }
    ensures local { result.global ≡ false }
{
    number_operand(alloc, "rows", 0, 1_000_000)
}

pub(crate) fn source<'a>(alloc: Global) -> Arg<'a>
    ensures rule { rule_of result ≡ source_rule }
    ensures local { result.global ≡ false }
{
    operand(alloc, "source")
}

pub(crate) fn rounds<'a>(alloc: Global) -> Arg<'a>
    ensures rule { rule_of result ≡ rounds_rule }
    ensures local { result.global ≡ false }
{
    number_operand(alloc, "rounds", 1, 1000)
}

pub(crate) fn workers<'a>(alloc: Global) -> Arg<'a>
    ensures rule { rule_of result ≡ workers_rule }
    ensures local { result.global ≡ false }
{
    number(alloc, "workers", 1, 16, "4")
}

pub(crate) fn plans<'a>(alloc: Global) -> Arg<'a>
    ensures rule { rule_of result ≡ plans_rule }
    ensures local { result.global ≡ false }
{
    number(alloc, "plans", 1, 1000, "256")
}

pub(crate) fn batch<'a>(alloc: Global) -> Arg<'a>
    ensures rule { rule_of result ≡ batch_rule }
    ensures local { result.global ≡ false }
{
    number(alloc, "batch", 1, 1024, "64")
}

pub(crate) fn depth<'a>(alloc: Global) -> Arg<'a>
    ensures rule { rule_of result ≡ depth_rule }
    ensures local { result.global ≡ false }
{
    number(alloc, "depth", 1, 64, "4")
}

pub(crate) fn local<'a>(alloc: Global) -> Arg<'a>
    ensures rule { rule_of result ≡ local_rule }
    ensures local { result.global ≡ false }
{
    word(alloc, "local", "hash")
}

pub(crate) fn combine<'a>(alloc: Global) -> Arg<'a>
    ensures rule { rule_of result ≡ combine_rule }
    ensures local { result.global ≡ false }
{
    flag(alloc, "combine")
}

pub(crate) fn prune<'a>(alloc: Global) -> Arg<'a>
    ensures rule { rule_of result ≡ prune_rule }
    ensures local { result.global ≡ false }
{
    flag(alloc, "prune")
}

pub(crate) fn counts<'a>(alloc: Global) -> Arg<'a>
    ensures rule { rule_of result ≡ counts_rule }
    ensures local { result.global ≡ false }
{
    flag(alloc, "counts")
}

pub(crate) fn stable<'a>(alloc: Global) -> Arg<'a>
    ensures rule { rule_of result ≡ stable_rule }
    ensures local { result.global ≡ false }
{
    flag(alloc, "stable")
}

// A required word.
fn operand<'a>(alloc: Global, name: &'a str) -> Arg<'a>
    ensures rule { rule_of result ≡ operand_rule name.entry.now }
    ensures local { result.global ≡ false }
{
    Arg::new(alloc, name).required(true)
}

// A required number from `least` to `most`.
fn number_operand<'a>(alloc: Global, name: &'a str, least: i64, most: i64) -> Arg<'a>
    ensures rule { rule_of result ≡ number_operand_rule name.entry.now least most }
    ensures local { result.global ≡ false }
{
    Arg::new(alloc, name)
        .required(true)
        .value_parser(ValueParser::signed(least, most))
}

// An option with a number from `least` to `most`; its default is `usual`.
fn number<'a>(alloc: Global, name: &'a str, least: i64, most: i64, usual: &'a str) -> Arg<'a>
    ensures rule { rule_of result ≡ number_rule name.entry.now least most usual.entry.now }
    ensures local { result.global ≡ false }
{
    Arg::new(alloc, name)
        .long(name)
        .value_parser(ValueParser::signed(least, most))
        .default_value(usual)
}

// An option with any word; its default is `usual`.
fn word<'a>(alloc: Global, name: &'a str, usual: &'a str) -> Arg<'a>
    ensures rule { rule_of result ≡ word_rule name.entry.now usual.entry.now }
    ensures local { result.global ≡ false }
{
    Arg::new(alloc, name).long(name).default_value(usual)
}

// An option without a value.
fn flag<'a>(alloc: Global, name: &'a str) -> Arg<'a>
    ensures rule { rule_of result ≡ flag_rule name.entry.now }
    ensures local { result.global ≡ false }
{
    Arg::new(alloc, name).long(name).action(ArgAction::SetTrue)
}
