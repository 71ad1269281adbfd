//! Rounds, and what is a round of one client.
ghost use Rattle.std.specs.Prelude.{◌≡◌, true, false, map, IfOk, IfErr, OnErr};
ghost use Rattle.std.specs.List.{list_any};
ghost use Rattle.dali_transcripts.specs.Clients.Told.{act_of, said_of, told_of};
ghost use Rattle.dali_transcripts.specs.Rounds.{AreBlocks};
ghost use Rattle.dali_core.specs.Cores.{IsNoShorter};
ghost use Rattle.dali_run.specs.declared.halt.Halt.TheVariants.{OutOfMemory};
ghost use Rattle.dali_run.specs.Fails.{Lost, LostOver, Played, AloneEnds, AloneEndsIn};
ghost use Rattle.dali_run.specs.Program.{PlacesIn, HoldsImages, store_of, told_in};
ghost use Rattle.dali_run.specs.Steps.{Plays, RightWithin, RunsRound, ActsAlone, StepsRound, StepsAlone, TellAll};
ghost use Rattle.dali_run.specs.Texts.{is_failure, says_failure};
ghost use Rattle.dali_run.specs.Told.{told_by, alone as told_alone};

use crate::blocks::{block_alone, blocks_of};
use crate::halt::Halt;
use crate::program::Program;
use crate::setting::Setting;
use crate::states::down;
use crate::texts::{text_alone, text_of_line, text_of_round};
use dali_calls::stepwise::Gate;
use dali_core::Core;
use dali_fuse::Fuse;
use dali_report::Line;
use dali_round::{RoundEnd, round};
use dali_script::Name;
use dali_store::Store;
use dali_transcripts::clients::{Block, Command, Line as Said, Transcript, Why};

/// Runs a round; its transcripts, if each client is done.
pub fn play<V: Store, G: Gate>(
    setting: &Setting<'_, G>,
    blocks: &[Block],
    core: Core<Fuse<V>>,
) -> (Core<Fuse<V>>, Result<Vec<Transcript>, Halt>)
    requires placed { AreBlocks (map told_of blocks.now) }
    requires places { PlacesIn V.Store core }
    ensures plays { IfOk result.1 (λ transcripts. Plays V.Store setting.now.precheck true (map told_of blocks.now) core
        transcripts.items result.0) }
    ensures tell { IfOk result.1 (λ transcripts. TellAll (map told_of blocks.now) transcripts.items) }
    ensures lost { OnErr result.1 ((played : Played V.Store setting.now.precheck (map told_of blocks.now) core
        result.0.vault.store) × (played.whole ≡ false)) }
    ensures longer { IsNoShorter (told_in V.Store) core.vault result.0.vault }
    ensures any_moment { RightWithin V.Store core result.0 }
    ensures memory { IfErr result.1 (λ halt. halt ≡ OutOfMemory) }
    ensures places { PlacesIn V.Store result.0 }
{
    let (core, transcripts, end) = round(
        setting.alloc,
        core,
        blocks,
        setting.precheck,
        setting.gate,
    );
    match end {
        RoundEnd::Done => (core, Ok(transcripts)),
        RoundEnd::OutOfMemory => (core, Err(Halt::OutOfMemory)),
    }
}

// A round over a core.
fn round_over<V: Store, G: Gate>(
    setting: &Setting<'_, G>,
    told: &[dali_script::Block],
    core: Core<Fuse<V>>,
) -> (Core<Fuse<V>>, Result<Vec<u8>, Halt>)
    requires placed { AreBlocks (map told_by told.now) }
    requires places { PlacesIn V.Store core }
    ensures runs { IfOk result.1
        (λ text. RunsRound V.Store setting.now.precheck (map told_by told.now) core text.items result.0) }
    ensures lost { OnErr result.1
        (LostOver V.Store setting.now.precheck (map told_by told.now) core result.0.vault.store) }
    ensures memory { IfErr result.1 (λ halt. halt ≡ OutOfMemory) }
    ensures places { PlacesIn V.Store result.0 }
{
    let Ok(blocks) = blocks_of(setting.alloc, told) else {
        return (core, Err(Halt::OutOfMemory));
    };
    let (core, transcripts) = play(setting, &blocks, core);
    match transcripts {
        Ok(transcripts) => {
            let text = text_of_round(setting.alloc, &transcripts);
            (core, text)
        }
        Err(halt) => (core, Err(halt)),
    }
}

/// The blocks of clients beside each other, and their lines behind their numbers.
pub fn round_of<V: Store, G: Gate>(
    setting: &Setting<'_, G>,
    told: &[dali_script::Block],
    program: Program<V>,
) -> (Program<V>, Result<Vec<u8>, Halt>)
    requires placed { AreBlocks (map told_by told.now) }
    requires images { HoldsImages V.Store program }
    ensures steps { IfOk result.1
        (λ text. StepsRound V.Store setting.now.precheck told.now program text.items result.0) }
    ensures lost { OnErr result.1
        (Lost V.Store setting.now.precheck (map told_by told.now) program (store_of result.0)) }
    ensures memory { IfErr result.1 (λ halt. halt ≡ OutOfMemory) }
    ensures images { HoldsImages V.Store result.0 }
{
    match program {
        Program::Up { core } => {
            let (core, printed) = round_over(setting, told, core);
            (Program::Up { core }, printed)
        }
        Program::Down { store } => {
            let printed = text_of_line(setting.alloc, &Line::RoundDown);
            (Program::Down { store }, printed)
        }
    }
}

fn is_failure(said: &Said) -> bool
    ensures { result ≡ is_failure (said_of said.now) }
{
    matches!(
        said,
        Said::Refused {
            why: Why::StoreStopped,
            ..
        }
    )
}

fn says_failure(transcript: &Transcript) -> bool
    ensures { result ≡ says_failure transcript.now }
{
    transcript.lines().iter().any(|said| is_failure(said))
}

// Whether a line says that the store failed.
fn say_failure(transcripts: &[Transcript]) -> bool
    ensures { result ≡ list_any says_failure transcripts.now }
{
    transcripts
        .iter()
        .any(|transcript| says_failure(transcript))
}

// A round of one client over a core. A failure that isn't the fuse's ends the run.
fn alone_over<V: Store, G: Gate>(
    setting: &Setting<'_, G>,
    command: &Command,
    core: Core<Fuse<V>>,
) -> (Core<Fuse<V>>, Result<Vec<u8>, Halt>)
    requires placed { AreBlocks (told_alone (act_of command.now)) }
    requires places { PlacesIn V.Store core }
    ensures acts { IfOk result.1
        (λ text. ActsAlone V.Store setting.now.precheck (act_of command.now) core text.items result.0) }
    ensures ends { IfErr result.1
        (λ halt. AloneEnds V.Store setting.now.precheck halt (act_of command.now) core result.0.vault.store) }
    ensures places { PlacesIn V.Store result.0 }
{
    let Ok(block) = block_alone(setting.alloc, command) else {
        return (core, Err(Halt::OutOfMemory));
    };
    let failed = core.vault.failed();
    let (core, transcripts) = play(setting, &[block], core);
    match transcripts {
        Ok(transcripts) => {
            if say_failure(&transcripts) && core.vault.failed() <= failed {
                return (core, Err(Halt::StoreFault));
            }
            let text = text_alone(setting.alloc, &transcripts);
            (core, text)
        }
        Err(halt) => (core, Err(halt)),
    }
}

/// A poke, an audit or a checkpoint outside a round, with this name.
pub fn alone<V: Store, G: Gate>(
    setting: &Setting<'_, G>,
    name: Name,
    command: &Command,
    program: Program<V>,
) -> (Program<V>, Result<Vec<u8>, Halt>)
    requires placed { AreBlocks (told_alone (act_of command.now)) }
    requires images { HoldsImages V.Store program }
    ensures steps { IfOk result.1
        (λ text. StepsAlone V.Store setting.now.precheck name (act_of command.now) program text.items result.0) }
    ensures ends { IfErr result.1
        (λ halt. AloneEndsIn V.Store setting.now.precheck halt (act_of command.now) program (store_of result.0)) }
    ensures images { HoldsImages V.Store result.0 }
{
    match program {
        Program::Up { core } => {
            let (core, printed) = alone_over(setting, command, core);
            (Program::Up { core }, printed)
        }
        Program::Down { store } => down(setting.alloc, name, store),
    }
}
