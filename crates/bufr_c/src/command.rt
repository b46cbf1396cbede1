//! Produces the same output and fault line for a message or stray `BUFR` as the `bufr` program.
ghost use Rattle.std.specs.Prelude.{◌≡◌, ◌∷◌, [], false, IfOk, OnOk};
ghost use Rattle.bufr_frame.specs.Prelude.{scan, FrameAt, cause_report};
ghost use Rattle.bufr_cli.specs.Prelude.{OnErrors, dump_piece, encode_pieces, fault_line, ls_piece};
ghost use Rattle.bufr_text.specs.Prelude.{documents_of};
ghost use Rattle.bufr_c.specs.Commands.{piece_by, IsTextOf, IsTextOfAll};

use crate::tables::Tables;
use crate::text_out::{TextOut, write_moved};
use bufr_bits::Device;
use bufr_cli::{Tally, run_dump, run_encode_form, run_ls};
use bufr_frame::{Cause, RunFault};
use bufr_tables::{TableB, TableD};
use bufr_text::Form;
use std::alloc::Global;

/// A command that processes a stream.
#[derive(Clone, Copy)]
pub(crate) enum Command<'t> {
    /// The command `bufr ls`.
    List,
    /// The command `bufr dump`, along with the tables that it uses.
    Dump(&'t TableB, &'t TableD),
}

/// A command and the allocator that it uses.
#[derive(Clone, Copy)]
pub(crate) struct Run<'t> {
    pub(crate) alloc: Global,
    pub(crate) command: Command<'t>,
}

/// The output and the fault line for one message or stray `BUFR`, in buffers that are reused for
/// the next one.
#[derive(Drop)]
pub(crate) struct EventText {
    alloc: Global,
    /// The text to write to the output.
    pub(crate) output: TextOut,
    /// The text to write to the error output.
    pub(crate) errors: TextOut,
    /// Whether the message was accepted (`false` for a stray `BUFR`).
    pub(crate) accepted: bool,
    /// The output and fault lines from running a command on a single message, before offset 0 in
    /// each line is replaced with the message's offset.
    lines: TextOut,
    faults: TextOut,
}

/// Returns the fault line for a stray `BUFR` at offset 0.
fn stray_line(cause: Cause) -> &'static [u8]
    ensures { result.now ≡ fault_line 0 (cause_report cause) }
{
    match cause {
        Cause::Cut => b"offset 0: 1 cut\n",
        Cause::ShortLength => b"offset 0: 2 short length\n",
        Cause::NoEnd => b"offset 0: 3 no end\n",
    }
}

impl EventText {
    pub(crate) fn new(alloc: Global) -> EventText {
        EventText {
            alloc,
            output: TextOut::new(alloc),
            errors: TextOut::new(alloc),
            accepted: false,
            lines: TextOut::new(alloc),
            faults: TextOut::new(alloc),
        }
    }

    /// Clears all text without freeing its memory.
    fn clear(&mut self)
        ensures output { self.new.output.octets.items ≡ [] }
        ensures errors { self.new.errors.octets.items ≡ [] }
        ensures lines { self.new.lines.octets.items ≡ [] }
        ensures faults { self.new.faults.octets.items ≡ [] }
        ensures accepted { self.new.accepted ≡ false }
    {
        self.output.clear();
        self.errors.clear();
        self.lines.clear();
        self.faults.clear();
        self.accepted = false;
    }

    /// Sets the error text to the fault line for a stray `BUFR` at `offset`.
    pub(crate) fn set_stray(&mut self, offset: u64, cause: Cause) -> Result<(), RunFault>
        ensures { OnOk result (IsTextOf self.new
            (OnErrors (fault_line offset (cause_report cause)))) }
    {
        self.clear();
        write_moved(stray_line(cause), offset, &mut self.errors)
    }

    /// Sets the text to the output of `bufr ls` for a message at `offset`. Because the command sees
    /// only this message, it reports offset 0, which is then replaced with `offset`.
    fn set_listed(&mut self, offset: u64, octets: &[u8]) -> Result<(), RunFault>
        requires { scan octets.now ≡ FrameAt 0 octets.now ∷ [] }
        ensures { OnOk result (IsTextOf self.new (ls_piece (FrameAt offset octets.now))) }
    {
        self.clear();
        let mut r = Device::new(octets);
        let tally = run_ls(self.alloc, &mut r, &mut self.lines, &mut self.faults)?;
        self.accepted = tally.accepted > 0;
        write_moved(self.lines.octets.as_slice(), offset, &mut self.output)?;
        write_moved(self.faults.octets.as_slice(), offset, &mut self.errors)
    }

    /// Sets the text to the output of `bufr dump` for a message at `offset`. Because the command
    /// sees only this message, any fault line reports offset 0, which is then replaced with
    /// `offset`.
    fn set_dumped(
        &mut self,
        offset: u64,
        octets: &[u8],
        b: &TableB,
        d: &TableD,
    ) -> Result<(), RunFault>
        requires { scan octets.now ≡ FrameAt 0 octets.now ∷ [] }
        ensures { OnOk result (IsTextOf self.new
            (dump_piece b.now d.now (FrameAt offset octets.now))) }
    {
        self.clear();
        let mut r = Device::new(octets);
        let tally = run_dump(self.alloc, &mut r, &mut self.output, &mut self.faults, b, d)?;
        self.accepted = tally.accepted > 0;
        write_moved(self.faults.octets.as_slice(), offset, &mut self.errors)
    }

    /// Sets the text to the output of a command for a message at `offset`.
    pub(crate) fn set_message(
        &mut self,
        command: &Command<'_>,
        offset: u64,
        octets: &[u8],
    ) -> Result<(), RunFault>
        requires { scan octets.now ≡ FrameAt 0 octets.now ∷ [] }
        ensures { OnOk result (IsTextOf self.new
            (piece_by command.now (FrameAt offset octets.now))) }
    {
        match command {
            Command::List => self.set_listed(offset, octets),
            Command::Dump(b, d) => self.set_dumped(offset, octets, b, d),
        }
    }

    /// Sets the text to the output of `bufr encode` for all documents in `octets`.
    #[tactic(auto, using(crate::proofs::EventLemmas::all_encoded))]
    pub(crate) fn set_encoded(
        &mut self,
        octets: &[u8],
        tables: &Tables,
        form: Form,
    ) -> Result<Tally, RunFault>
        ensures { IfOk result (λ tally. IsTextOfAll
            (encode_pieces form tables.now.b tables.now.d (documents_of octets.now)) self.new
            tally) }
    {
        self.clear();
        let mut r = Device::new(octets);
        let (w, e) = (&mut self.output, &mut self.errors);
        run_encode_form(self.alloc, &mut r, w, e, &tables.b, &tables.d, form)
    }
}
