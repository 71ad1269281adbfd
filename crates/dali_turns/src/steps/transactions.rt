//! How transactions end.
ghost use Rattle.std.specs.Prelude.{◌≡◌, ◌+◌, ◌<◌, [], ◌∷◌, Bool, true, Some, None, Ok, Err, is_ok, map, OnOk, OnErr, IfOk, IfSome, IsSome};
ghost use Rattle.dali_calls.specs.Flags.{FlagsStay};
ghost use Rattle.dali_transcripts.specs.declared.clients.command.Command.TheVariants.{Abort as IsAbort};
ghost use Rattle.dali_transcripts.specs.declared.clients.line.Line.TheVariants.{Busy as IsBusy, LeftOpen as IsLeftOpen};
ghost use Rattle.dali_transcripts.specs.Clients.Told.{act_of};
ghost use Rattle.dali_transcripts.specs.Moves.{behind_close as acts_behind};
ghost use Rattle.dali_turns.specs.declared.client.State.TheVariants.{Outside as IsOutside, Within as IsWithin, Waiting as IsWaiting};
ghost use Rattle.dali_turns.specs.Clients.{next_of, Passes, Finishes};
ghost use Rattle.dali_turns.specs.Ends.{IsTakenBack, IsHalfBack, abort_line, end_line as line_of, SaysAlso, GoesSilent};
ghost use Rattle.dali_turns.specs.Goes.{StepGoes, YieldGoes};
ghost use Rattle.dali_turns.specs.Places.{PlacesGo};
ghost use Rattle.dali_turns.specs.Refuses.{SaysLine, SaysStop};

use crate::client::{Client, State, Transaction};
use crate::run::no_run;
use dali_bytes::OutOfMemory;
use dali_core::Core;
use dali_runs::Cause;
use dali_store::Store;
use dali_transactions::AbortError;
use dali_transcripts::clients::{Command, Line, Why};

// How often a transaction is tried that gets Busy.
const MAX_TRIES: u32 = 1000;

// Takes a transaction of a core back. Answers why not, where the engine is stopped.
fn take_back<V: Store>(core: &mut Core<V>, txn: u64) -> Result<Option<Cause>, OutOfMemory>
    ensures vault { core.new.vault ≡ core.old.vault }
    ensures flags { FlagsStay core.old.regions.items core.new.regions.items }
    ensures stopped { IfSome core.old.system.state.stop (λ cause. core.new ≡ core.old) }
    ensures known { IfOk result (λ o. o ≡ core.old.system.state.stop) }
    ensures away { core.old.system.state.stop ≡ None → OnOk result (IsTakenBack V.Store txn core.old.regions.items core.old.system.state core.old.vault core.new.regions.items core.new.system.state) }
    ensures half { OnErr result ((core.old.system.state.stop ≡ None) × IsHalfBack V.Store txn core.old.regions.items core.old.system.state core.old.vault core.new.regions.items core.new.system.state) }
{
    match dali_transactions::abort(core, txn) {
        Ok(()) => Ok(None),
        Err(AbortError::Stopped { cause }) => Ok(Some(cause)),
        Err(AbortError::OutOfMemory) => Err(OutOfMemory),
        Err(AbortError::Unfit) => no_run(),
    }
}

fn told_line(left: Option<Cause>) -> Line
    ensures { result ≡ abort_line left }
{
    match left {
        None => Line::AbortOk,
        Some(cause) => Line::Refused {
            command: Command::Abort,
            why: Why::Stopped { cause },
        },
    }
}

fn end_line(left: Option<Cause>) -> Line
    ensures { result ≡ line_of left }
{
    match left {
        None => Line::Aborted,
        Some(_) => Line::LeftOpen,
    }
}

// The client says how its transaction ended, and stands outside of one.
fn close(client: &mut Client<'_>, line: Line) -> Result<bool, OutOfMemory>
    ensures ok { OnOk result (Finishes client.old IsOutside line client.new) }
    ensures err { OnErr result (Passes client.old IsOutside client.new) }
    ensures stands { client.new.state ≡ IsOutside }
    ensures on { IfOk result (λ went. went ≡ true) }
{
    match client.finish(State::Outside, line) {
        Ok(()) => Ok(true),
        Err(error) => Err(error),
    }
}

/// Takes the transaction back, as it is told.
pub(crate) fn abort<V: Store>(
    client: &mut Client<'_>,
    transaction: Transaction<'_>,
    core: &mut Core<V>,
) -> Result<bool, OutOfMemory>
    requires stands { client.old.state ≡ IsOutside }
    requires next { next_of client.old ≡ Some IsAbort }
    ensures goes { (precheck : Bool) → StepGoes V.Store precheck (IsWithin transaction.entry) client.old core.old.regions.items core.old.system.state core.old.vault (is_ok result) client.new core.new.regions.items core.new.system.state core.new.vault }
    ensures places { PlacesGo V.told (IsWithin transaction.entry) core.old.regions.items core.old.vault client.new.state core.new.regions.items core.new.vault }
    ensures on { IfOk result (λ went. went ≡ true) }
    ensures vault { core.new.vault ≡ core.old.vault }
    ensures refuses { SaysStop core.old.system.state IsOutside IsAbort client.old result client.new }
{
    let left = take_back(core, transaction.txn)?;
    close(client, told_line(left))
}

/// The block ends in the transaction, which is taken back.
pub(crate) fn end<V: Store>(
    client: &mut Client<'_>,
    transaction: Transaction<'_>,
    core: &mut Core<V>,
) -> Result<bool, OutOfMemory>
    requires stands { client.old.state ≡ IsOutside }
    requires next { next_of client.old ≡ None }
    ensures goes { (precheck : Bool) → StepGoes V.Store precheck (IsWithin transaction.entry) client.old core.old.regions.items core.old.system.state core.old.vault (is_ok result) client.new core.new.regions.items core.new.system.state core.new.vault }
    ensures places { PlacesGo V.told (IsWithin transaction.entry) core.old.regions.items core.old.vault client.new.state core.new.regions.items core.new.vault }
    ensures on { IfOk result (λ went. went ≡ true) }
    ensures vault { core.new.vault ≡ core.old.vault }
    ensures refuses { IsSome core.old.system.state.stop → OnOk result (SaysLine client.old IsOutside IsLeftOpen client.new) }
{
    let left = take_back(core, transaction.txn)?;
    close(client, end_line(left))
}

// The client waits for the holder, to try the transaction again.
fn wait_for<'a>(
    client: &mut Client<'a>,
    commands: &'a [Command],
    tries: u32,
    holder: u64,
    line: Line,
) -> Result<(), OutOfMemory>
    ensures ok { OnOk result (SaysAlso client.old commands.now (IsWaiting tries holder) (line ∷ []) client.new) }
    ensures err { OnErr result (GoesSilent client.old client.new) }
    ensures stands { client.new.state ≡ IsWaiting tries holder }
{
    client.rest = commands;
    client.state = State::Waiting { tries, holder };
    client.transcript.say(line)
}

// Behind the last try it goes on with the command behind the transaction's end.
fn leave<'a>(client: &mut Client<'a>, holder: u64, line: Line) -> Result<(), OutOfMemory>
    ensures rest { OnOk result (map act_of client.new.rest.now ≡ acts_behind (map act_of client.old.rest.now)) }
    ensures ok { OnOk result (SaysAlso client.old client.new.rest.now IsOutside (IsBusy holder ∷ line ∷ []) client.new) }
    ensures err { OnErr result (GoesSilent client.old client.new) }
    ensures stands { client.new.state ≡ IsOutside }
{
    client.rest = behind_close(client.rest);
    client.state = State::Outside;
    client.transcript.say_both(Line::Busy { holder }, line)
}

/// An older transaction holds the key of the call: this one is taken back, and tried again when that holder has ended. Behind
/// the last try the client goes on with the command behind the transaction's end.
pub(crate) fn give_way<'a, V: Store>(
    client: &mut Client<'a>,
    transaction: Transaction<'a>,
    holder: u64,
    core: &mut Core<V>,
) -> Result<bool, OutOfMemory>
    requires stands { client.old.state ≡ IsOutside }
    ensures on { IfOk result (λ went. went ≡ true) }
    ensures goes { (precheck : Bool) → YieldGoes V.Store precheck transaction.entry holder client.old core.old.regions.items core.old.system.state core.old.vault (is_ok result) client.new core.new.regions.items core.new.system.state core.new.vault }
    ensures places { PlacesGo V.told (IsWithin transaction.entry) core.old.regions.items core.old.vault client.new.state core.new.regions.items core.new.vault }
    ensures vault { core.new.vault ≡ core.old.vault }
{
    if transaction.tries >= MAX_TRIES {
        return no_run(); // no transaction is tried so often
    }
    let line = end_line(take_back(core, transaction.txn)?);
    let tries = transaction.tries + 1;
    if tries < MAX_TRIES {
        wait_for(client, transaction.commands, tries, holder, line)?;
        return Ok(true);
    }
    leave(client, holder, line)?;
    Ok(true)
}

// The commands behind the end of the transaction that is open in front of these.
fn behind_close<'a>(commands: &'a [Command]) -> &'a [Command]
    ensures { map act_of result.now ≡ acts_behind (map act_of commands.now) }
{
    let mut rest = commands;
    while let Some((command, behind)) = rest.split_first() {
        if command.closes() {
            return behind;
        }
        rest = behind;
    }
    rest
}
