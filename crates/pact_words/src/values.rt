//! From the values that clap finds to a command.

ghost use Rattle.std.specs.Prelude.{◌≡◌, option_map};
ghost use Rattle.clap.specs.Words.{first_of, found_of, rows_of};
ghost use Rattle.pact_words.specs.FoundValues.{flag_of, local_of, local_said, number_of};
ghost use Rattle.pact_words.specs.Words.{asked, asked_of, options_of, rewrites_of};

use crate::commands::{Command, Kind, LocalStrategy, Options, Rewrites};
use clap::ArgMatches;

/// The command that the values give, if all of them are there.
pub(crate) fn command_in<'a>(kind: Kind, matches: &ArgMatches<'a>) -> Option<Command<'a>>
    ensures { option_map asked result ≡ asked_of kind (rows_of (found_of matches.now)) }
{
    match kind {
        Kind::Run => run(matches),
        Kind::Plan => plan(matches),
        Kind::Cert => cert(matches),
        Kind::Check => check(matches),
        Kind::Sets => sets(matches),
        Kind::Gen => generate(matches),
        Kind::Drill => drill(matches),
        Kind::Iterate => iterate(matches),
    }
}

fn run<'a>(matches: &ArgMatches<'a>) -> Option<Command<'a>>
    ensures { option_map asked result ≡ asked_of Kind.Run (rows_of (found_of matches.now)) }
{
    let program = text(matches, "program")?;
    let options = options(matches)?;
    let rewrites = rewrites(matches)?;
    let counts = flag(matches, "counts")?;
    Some(Command::Run {
        program,
        options,
        rewrites,
        counts,
    })
}

// The options of each command that runs plans.
fn options(matches: &ArgMatches<'_>) -> Option<Options>
    ensures { result ≡ options_of (rows_of (found_of matches.now)) }
{
    let workers = number(matches, "workers")?;
    let plans = number(matches, "plans")?;
    let batch = number(matches, "batch")?;
    let depth = number(matches, "depth")?;
    let local = local(matches, "local")?;
    Some(Options {
        workers,
        plans,
        batch,
        depth,
        local,
    })
}

// Whether groups are combined and fields dropped.
fn rewrites(matches: &ArgMatches<'_>) -> Option<Rewrites>
    ensures { result ≡ rewrites_of (rows_of (found_of matches.now)) }
{
    let combine = flag(matches, "combine")?;
    let prune = flag(matches, "prune")?;
    Some(Rewrites { combine, prune })
}

fn plan<'a>(matches: &ArgMatches<'a>) -> Option<Command<'a>>
    ensures { option_map asked result ≡ asked_of Kind.Plan (rows_of (found_of matches.now)) }
{
    let program = text(matches, "program")?;
    let workers = number(matches, "workers")?;
    let plans = number(matches, "plans")?;
    Some(Command::Plan {
        program,
        workers,
        plans,
    })
}

fn cert<'a>(matches: &ArgMatches<'a>) -> Option<Command<'a>>
    ensures { option_map asked result ≡ asked_of Kind.Cert (rows_of (found_of matches.now)) }
{
    let program = text(matches, "program")?;
    let workers = number(matches, "workers")?;
    let plans = number(matches, "plans")?;
    Some(Command::Cert {
        program,
        workers,
        plans,
    })
}

fn check<'a>(matches: &ArgMatches<'a>) -> Option<Command<'a>>
    ensures { option_map asked result ≡ asked_of Kind.Check (rows_of (found_of matches.now)) }
{
    let program = text(matches, "program")?;
    let certificate = text(matches, "certificate")?;
    Some(Command::Check {
        program,
        certificate,
    })
}

fn sets<'a>(matches: &ArgMatches<'a>) -> Option<Command<'a>>
    ensures { option_map asked result ≡ asked_of Kind.Sets (rows_of (found_of matches.now)) }
{
    let program = text(matches, "program")?;
    Some(Command::Sets { program })
}

fn generate<'a>(matches: &ArgMatches<'a>) -> Option<Command<'a>>
    ensures { option_map asked result ≡ asked_of Kind.Gen (rows_of (found_of matches.now)) }
{
    let seed = number(matches, "seed")?;
    let rows = number(matches, "rows")?;
    Some(Command::Gen { seed, rows })
}

fn drill<'a>(matches: &ArgMatches<'a>) -> Option<Command<'a>>
    ensures { option_map asked result ≡ asked_of Kind.Drill (rows_of (found_of matches.now)) }
{
    let seed = number(matches, "seed")?;
    let rows = number(matches, "rows")?;
    let options = options(matches)?;
    let rewrites = rewrites(matches)?;
    Some(Command::Drill {
        seed,
        rows,
        options,
        rewrites,
    })
}

fn iterate<'a>(matches: &ArgMatches<'a>) -> Option<Command<'a>>
    ensures { option_map asked result ≡ asked_of Kind.Iterate (rows_of (found_of matches.now)) }
{
    let program = text(matches, "program")?;
    let source = text(matches, "source")?;
    let rounds = number(matches, "rounds")?;
    let options = options(matches)?;
    let stable = flag(matches, "stable")?;
    Some(Command::Iterate {
        program,
        source,
        rounds,
        options,
        stable,
    })
}

fn text<'a>(matches: &ArgMatches<'a>, name: &str) -> Option<&'a str>
    ensures { option_map (λ text. text.now) result ≡ first_of name.now (rows_of (found_of matches.now)) }
{
    matches.get_str(name)
}

fn number<'a>(matches: &ArgMatches<'a>, name: &str) -> Option<u32>
    ensures { result ≡ number_of name.now (rows_of (found_of matches.now)) }
{
    matches.get_one::<u32>(name)
}

fn flag<'a>(matches: &ArgMatches<'a>, name: &str) -> Option<bool>
    ensures { result ≡ flag_of name.now (rows_of (found_of matches.now)) }
{
    matches.get_one::<bool>(name)
}

fn local(matches: &ArgMatches<'_>, name: &str) -> Option<LocalStrategy>
    ensures { result ≡ local_of name.now (rows_of (found_of matches.now)) }
{
    local_said(text(matches, name)?)
}

fn local_said(word: &str) -> Option<LocalStrategy>
    ensures { result ≡ local_said word.now }
{
    match word {
        "hash" => Some(LocalStrategy::Hash),
        "sort" => Some(LocalStrategy::Sort),
        _ => None,
    }
}
