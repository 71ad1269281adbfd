//! A client of a round, as a machine that makes one step at a time.
ghost use Rattle.std.specs.Prelude.{◌≡◌, ◌+◌, ◌-◌, ◌^◌, ◌&&◌, ◌==◌, length, min, slice_get, IsSome, OnOk, OnErr};
ghost use Rattle.dali_transcripts.specs.Clients.Said.{silent};
ghost use Rattle.dali_turns.specs.declared.client.State.TheVariants.{Outside as IsOutside, Within as IsWithin, Gone as IsGone};
ghost use Rattle.dali_turns.specs.Clients.{Passes, Finishes, RefusesCall, is_over};

use crate::plan::BoxedPlan;
use dali_audit::Audit;
use dali_bytes::OutOfMemory;
use dali_checkpoint::Checkpoint;
use dali_record::Pending;
use dali_transcripts::clients::{Block, Command, Line, Transcript, Why};
use std::alloc::Global;

/// A client's open transaction.
#[derive(Clone, Copy)]
pub(crate) struct Transaction<'a> {
    pub(crate) txn: u64,
    /// How many tries before it got Busy.
    pub(crate) tries: u32,
    /// The commands from its begin on: with these it is tried again.
    pub(crate) commands: &'a [Command],
    /// The client dies in so many operations from here, if it does: in the next one at 1.
    pub(crate) deadly: Option<u64>,
}

/// Where a client stands between two steps.
#[derive(Drop)]
pub(crate) enum State<'a> {
    /// Outside a transaction.
    Outside,
    /// Its begin was refused: the commands up to the end of that transaction are left out.
    LeftOut,
    /// In a transaction and in no operation. Where a call is the next command its lock wasn't granted yet.
    Within {
        transaction: Transaction<'a>,
    },
    /// The lock of the call is granted; its operations are made.
    Calling {
        transaction: Transaction<'a>,
        plan: BoxedPlan,
    },
    /// The call is refused; its changes are taken back.
    TakingBack {
        transaction: Transaction<'a>,
        plan: BoxedPlan,
        why: Why,
    },
    /// The commit of the transaction is record `number`. Behind its flush the removals below `next` are freed.
    Committing {
        transaction: Transaction<'a>,
        number: u64,
        removals: Vec<Pending>,
        next: usize,
    },
    /// So many tries got Busy, and the last one's transaction is taken back: the next one begins when this holder has
    /// ended or is dead, or when the engine is stopped.
    Waiting {
        tries: u32,
        holder: u64,
    },
    /// In an audit: the regions below `next` were passed.
    Auditing {
        audit: Audit,
        next: u32,
    },
    /// In a checkpoint: the regions below `next` were copied.
    Copying {
        checkpoint: Checkpoint,
        next: u32,
    },
    /// In the audit of a checkpoint: the regions below `next` were passed.
    Certifying {
        checkpoint: Checkpoint,
        audit: Audit,
        next: u32,
    },
    /// The client died in a transaction.
    Gone,
}

/// A client: what it has left to do, where it stands, and what it said and logged.
#[derive(Drop)]
pub struct Client<'a> {
    /// The commands that are left, of which the first is under way.
    pub(crate) rest: &'a [Command],
    pub(crate) state: State<'a>,
    /// How many operations the gate was told of.
    pub(crate) points: u32,
    pub(crate) transcript: Transcript,
}

impl<'a> Client<'a> {
    /// The client of a block, at its begin. It takes no memory.
    pub fn new(alloc: Global, block: &'a Block) -> Self
        ensures rest { result.rest.now ≡ block.now.commands.items }
        ensures state { result.state ≡ IsOutside }
        ensures points { result.points ≡ 0 }
        ensures transcript { result.transcript ≡ silent block.now.client }
    {
        Client {
            rest: block.commands.as_slice(),
            state: State::Outside,
            points: 0,
            transcript: Transcript::new(alloc, block.client),
        }
    }

    /// Its number.
    pub fn number(&self) -> u32
        ensures { result ≡ self.now.transcript.client }
    {
        self.transcript.client()
    }

    /// What it said and logged.
    pub fn into_transcript(self) -> Transcript
        ensures { result ≡ self.entry.transcript }
    {
        self.transcript
    }

    /// Whether it is done.
    pub fn is_over(&self) -> bool
        ensures { result ≡ is_over self.now.state (length self.now.rest.now == 0) }
    {
        match self.state {
            State::Gone => true,
            State::Outside | State::LeftOut => self.rest.is_empty(),
            _ => false,
        }
    }

    /// It does no more: its round ends in the midst of its step.
    pub fn leave(&mut self)
        ensures { self.new ≡ record self.old { state = IsGone } }
    {
        self.state = State::Gone;
    }

    /// The command that is under way, or is next.
    pub(crate) fn command(&self) -> Option<Command>
        ensures { result ≡ slice_get self.now.rest.now 0 }
    {
        self.rest.first().copied()
    }

    /// Goes on behind the command that was under way.
    pub(crate) fn pass_command(&mut self)
        ensures { Passes self.old self.old.state self.new }
    {
        if let Some((_, rest)) = self.rest.split_first() {
            self.rest = rest;
        }
    }

    /// Says a line. The end of the command that was under way: the client stands in this state then.
    pub(crate) fn finish(&mut self, state: State<'a>, line: Line) -> Result<(), OutOfMemory>
        ensures ok { OnOk result (Finishes self.old state.entry line self.new) }
        ensures err { OnErr result (Passes self.old state.entry self.new) }
    {
        self.pass_command();
        self.state = state;
        self.transcript.say(line)
    }

    /// The call that is under way is refused, and its transaction goes on.
    pub(crate) fn refuse_call(
        &mut self,
        transaction: Transaction<'a>,
        why: Why,
    ) -> Result<(), OutOfMemory>
        requires { IsSome (slice_get self.old.rest.now 0) }
        ensures ok { OnOk result (RefusesCall self.old transaction.entry why self.new) }
        ensures err { OnErr result (Passes self.old (IsWithin transaction.entry) self.new) }
    {
        let Some(command) = self.command() else {
            unreachable!() // a call is under way
        };
        self.finish(
            State::Within { transaction },
            Line::Refused { command, why },
        )
    }

    /// The number of the next operation for the gate.
    pub(crate) fn point(&self) -> u32
        ensures { result ≡ min (self.now.points + 1) (2 ^ 32 - 1) }
    {
        self.points.saturating_add(1)
    }
}
