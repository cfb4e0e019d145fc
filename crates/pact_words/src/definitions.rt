//! The commands as clap sees them.

ghost use Rattle.std.specs.Prelude.{◌≡◌, IfOk};
ghost use Rattle.clap.specs.Words.{app_of};
ghost use Rattle.pact_words.specs.Definitions.{app_for, check_app, drill_app, generating_app, iterate_app, planning_app, run_app, sets_app, with_limits, with_options, with_pipes, with_rewrites, with_rounds};

use crate::arguments::{
    batch, certificate, combine, counts, depth, local, plans, program, prune, rounds, rows, seed,
    source, stable, workers,
};
use crate::commands::Kind;
use clap::Command;
use std::alloc::{AllocError, Global};

/// The definition of a command.
pub(crate) fn definition<'a>(alloc: Global, kind: Kind) -> Result<Command<'a>, AllocError>
    ensures { IfOk result (λ c. app_of c ≡ app_for kind) }
{
    match kind {
        Kind::Run => run(alloc),
        Kind::Plan => planning(alloc, "plan"),
        Kind::Cert => planning(alloc, "cert"),
        Kind::Check => check(alloc),
        Kind::Sets => sets(alloc),
        Kind::Gen => generating(alloc, "gen"),
        Kind::Drill => drill(alloc),
        Kind::Iterate => iterate(alloc),
    }
}

fn run<'a>(alloc: Global) -> Result<Command<'a>, AllocError>
    ensures { IfOk result (λ c. app_of c ≡ run_app) }
{
    let command = Command::new(alloc, "run").arg(program(alloc))?;
    with_rewrites(alloc, with_options(alloc, command)?)?.arg(counts(alloc))
}

// A command that chooses a plan.
fn planning<'a>(alloc: Global, name: &'a str) -> Result<Command<'a>, AllocError>
    ensures { IfOk result (λ c. app_of c ≡ planning_app name.entry.now) }
{
    with_limits(alloc, Command::new(alloc, name).arg(program(alloc))?)
}

fn check<'a>(alloc: Global) -> Result<Command<'a>, AllocError>
    ensures { IfOk result (λ c. app_of c ≡ check_app) }
{
    Command::new(alloc, "check")
        .arg(program(alloc))?
        .arg(certificate(alloc))
}

fn sets<'a>(alloc: Global) -> Result<Command<'a>, AllocError>
    ensures { IfOk result (λ c. app_of c ≡ sets_app) }
{
    Command::new(alloc, "sets").arg(program(alloc))
}

// A command that generates rows.
fn generating<'a>(alloc: Global, name: &'a str) -> Result<Command<'a>, AllocError>
    ensures { IfOk result (λ c. app_of c ≡ generating_app name.entry.now) }
{
    Command::new(alloc, name).arg(seed(alloc))?.arg(rows(alloc))
}

fn drill<'a>(alloc: Global) -> Result<Command<'a>, AllocError>
    ensures { IfOk result (λ c. app_of c ≡ drill_app) }
{
    with_rewrites(alloc, with_options(alloc, generating(alloc, "drill")?)?)
}

fn iterate<'a>(alloc: Global) -> Result<Command<'a>, AllocError>
    ensures { IfOk result (λ c. app_of c ≡ iterate_app) }
{
    let command = Command::new(alloc, "iterate").arg(program(alloc))?;
    with_options(alloc, with_rounds(alloc, command)?)?.arg(stable(alloc))
}

// Adds the options of each command that runs plans.
fn with_options<'a>(alloc: Global, command: Command<'a>) -> Result<Command<'a>, AllocError>
    ensures { IfOk result (λ c. app_of c ≡ with_options (app_of command.entry)) }
{
    with_pipes(alloc, with_limits(alloc, command)?)?.arg(local(alloc))
}

// Adds whether groups are combined and fields dropped.
fn with_rewrites<'a>(alloc: Global, command: Command<'a>) -> Result<Command<'a>, AllocError>
    ensures { IfOk result (λ c. app_of c ≡ with_rewrites (app_of command.entry)) }
{
    command.arg(combine(alloc))?.arg(prune(alloc))
}

fn with_limits<'a>(alloc: Global, command: Command<'a>) -> Result<Command<'a>, AllocError>
    ensures { IfOk result (λ c. app_of c ≡ with_limits (app_of command.entry)) }
{
    command.arg(workers(alloc))?.arg(plans(alloc))
}

fn with_pipes<'a>(alloc: Global, command: Command<'a>) -> Result<Command<'a>, AllocError>
    ensures { IfOk result (λ c. app_of c ≡ with_pipes (app_of command.entry)) }
{
    command.arg(batch(alloc))?.arg(depth(alloc))
}

// Adds the source that gets the rows of the round before, and the number of rounds.
fn with_rounds<'a>(alloc: Global, command: Command<'a>) -> Result<Command<'a>, AllocError>
    ensures { IfOk result (λ c. app_of c ≡ with_rounds (app_of command.entry)) }
{
    command.arg(source(alloc))?.arg(rounds(alloc))
}
