//! What a client said and logged.
ghost use Rattle.std.specs.Prelude.{◌≡◌, ℕ, ◌≤◌, ◌∷◌, [], OnOk, OnErr};
ghost use Rattle.dali_transcripts.specs.Clients.Said.{silent, said, logged};

use crate::clients::line::Line;
use dali_bytes::OutOfMemory;
use std::alloc::Global;
use std::marker::Model;
use std::mem;

/// What a client said in a round, and which records of the log are its own.
#[derive(Drop)]
pub struct Transcript {
    client: u32,
    lines: Vec<Line>,
    receipts: Vec<u64>,
}

impl Model for Transcript {
    ghost use Rattle.dali_transcripts.specs.Clients.Said.{Transcribed};

    ghost Value = { Transcribed };

    ghost view = { λ t. record { client = t.client; lines = t.lines.items; receipts = t.receipts.items } };
}

impl Transcript {
    /// The transcript of a client that has said and logged nothing. It takes no memory.
    pub fn new(alloc: Global, client: u32) -> Self
        ensures { result ≡ silent client }
    {
        Transcript {
            client,
            lines: Vec::new(alloc),
            receipts: Vec::new(alloc),
        }
    }

    /// The client's number.
    pub fn client(&self) -> u32
        ensures { result ≡ self.now.client }
    {
        self.client
    }

    /// The same, as that of the client with this number.
    pub fn with_client(self, client: u32) -> Self
        ensures { result ≡ record self { client = client } }
    {
        Transcript { client, ..self }
    }

    /// The lines that the client said, in order.
    pub fn lines(&self) -> &[Line]
        ensures { result.now ≡ self.now.lines }
    {
        &self.lines
    }

    /// The numbers of all records that it logged, ascending: those of its transactions and of what they freed, of its
    /// audits and of its clean-ups.
    pub fn receipts(&self) -> &[u64]
        ensures { result.now ≡ self.now.receipts }
    {
        &self.receipts
    }

    /// Adds a line that the client says.
    pub fn say(&mut self, line: Line) -> Result<(), OutOfMemory>
        ensures ok { OnOk result (self.new ≡ said self.old (line ∷ [])) }
        ensures err { OnErr result (self.new ≡ self.old) }
    {
        self.lines.push(line)?;
        Ok(())
    }

    /// Two more lines, or none where memory is refused.
    pub fn say_both(&mut self, first: Line, second: Line) -> Result<(), OutOfMemory>
        ensures ok { OnOk result (self.new ≡ said self.old (first ∷ second ∷ [])) }
        ensures err { OnErr result (self.new ≡ self.old) }
    {
        self.lines.push(first)?;
        if self.lines.push(second).is_err() {
            self.lines.pop();
            return Err(OutOfMemory);
        }
        Ok(())
    }

    /// Takes the numbers of its records out, and puts these in their place.
    pub fn replace_receipts(&mut self, receipts: Vec<u64>) -> Vec<u64>
        ensures taken { result.items ≡ self.old.receipts }
        ensures put { self.new ≡ record self.old { receipts = receipts.items } }
    {
        mem::replace(&mut self.receipts, receipts)
    }

    /// The records from `first` to `behind`, without the latter, are its own too; where memory is refused, the first of them.
    pub fn log(&mut self, first: u64, behind: u64) -> Result<(), OutOfMemory>
        requires { first ≤ behind }
        ensures ok { OnOk result (self.new ≡ logged self.old first behind) }
        ensures err { OnErr result ((upto : ℕ) × (first ≤ upto) × (upto ≤ behind) × (self.new ≡ logged self.old first upto)) }
    {
        for number in first..behind {
            self.receipts.push(number)?;
        }
        Ok(())
    }
}
