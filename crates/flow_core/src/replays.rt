//! Lists of events.

ghost use Rattle.std.specs.Prelude.{◌≤◌, List, length, IfErr, IfOk};
ghost use Rattle.pact_operators.specs.Allowed.{Bag};
ghost use Rattle.pact_operators.specs.Programs.{ProgramData};
ghost use Rattle.flow_instance.specs.Most.{most, program_turns};
ghost use Rattle.flow_instance.specs.Spots.{setting};
ghost use Rattle.flow_instance.specs.Worlds.{History};
ghost use Rattle.flow_core.specs.Laws.{ObeysLaws};
ghost use Rattle.flow_core.specs.Replays.{HandsBackLawful, IsReplayed, IsStopped};
ghost use Rattle.flow_core.specs.Worlds.{IsStanding, StandsForSome};

use crate::replay_errors::Replay;
use crate::worlds::World;
use flow_instance::Event;
use local_strategy::Local;

/// Lets the events of a list happen, in their order. The clause `short` bounds the number of events of any run.
pub fn replay<L: Local>(world: World<L>, events: &[Event]) -> Result<World<L>, Replay<L>>
    requires { StandsForSome world }
    ensures done { IfOk result (IsReplayed world events.now) }
    ensures short { IfOk result (λ v. (p : ProgramData) (inputs : List Bag) (h : History) → IsStanding (setting p inputs world.physical) world h → length events.now ≤ most (setting p inputs world.physical) (program_turns p)) }
    ensures stopped { IfErr result (IsStopped world events.now) }
    ensures laws { IfOk result ObeysLaws }
    ensures laws_stopped { IfErr result HandsBackLawful }
{
    let mut world = world;
    for (index, &event) in events.iter().enumerate() {
        if !world.enabled(event) {
            return Err(Replay::NotEnabled { index, world });
        }
        if world.step(event).is_err() {
            return Err(Replay::Memory);
        }
    }
    Ok(world)
}
