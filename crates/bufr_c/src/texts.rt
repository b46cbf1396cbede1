//! The input, the status and the progress of a call.
ghost use Rattle.std.specs.Prelude.{◌≡◌, drop};
ghost use Rattle.bufr_c.specs.Commands.{form_by};

use bufr_text::Form;

/// The status of a call that reached the end of its input.
pub(crate) const DONE: i32 = 0;
/// The status of a call that ran out of memory.
pub(crate) const OUT_OF_MEMORY: i32 = 73;
/// The status of a call that stopped because the next output did not fit into the buffers.
pub(crate) const NO_ROOM: i32 = 74;
/// The status of a call whose input specifies an unknown form.
pub(crate) const UNKNOWN_FORM: i32 = 75;

/// The input of a call.
#[repr(C)]
#[derive(Clone, Copy, Debug)]
pub struct CallInput<'a> {
    /// The stream of messages, or the documents that [`crate::bufr_encode`] should encode.
    pub octets: &'a [u8],
    /// The contents of the file that defines Table B.
    pub table_b: &'a [u8],
    /// The contents of the file that defines Table D.
    pub table_d: &'a [u8],
    /// The descriptors of the items that [`crate::bufr_items`] should return. If the list is empty,
    /// [`crate::bufr_items`] returns all items.
    pub wanted: &'a [u16],
    /// The form of the messages that [`crate::bufr_encode`] writes (0 for the form that each
    /// document specifies, 1 for plain, or 2 for compressed).
    pub form: u64,
    /// Reserved for future versions. The value must be 0.
    pub reserved: [u64; 7],
}

/// Returns the form with the given number, or `None` if the number is invalid.
pub(crate) fn form_by(form: u64) -> Option<Form>
    ensures { result ≡ form_by form }
{
    match form {
        0 => Some(Form::AsWritten),
        1 => Some(Form::Plain),
        2 => Some(Form::Compressed),
        _ => None,
    }
}

/// Returns the octets from index `at` to the end, or an empty slice if `at` is past the end.
#[tactic(auto, using(crate::proofs::EventLemmas::rest_from))]
pub(crate) fn rest_of(octets: &[u8], at: usize) -> &[u8]
    ensures { result.now ≡ drop at octets.now }
{
    &octets[at.min(octets.len())..]
}

/// The progress of a call that writes text or messages, and the number of octets that it wrote.
#[repr(C)]
#[derive(Clone, Copy, Debug, PartialEq, Eq)]
pub struct Texts {
    /// The offset in the input (in octets, counted from 0) at which the call starts. When the call
    /// returns, this field contains the offset at which the next call should start.
    pub at: usize,
    /// The number of octets written to the output buffer.
    pub output_length: usize,
    /// The number of octets written to the buffer for fault lines.
    pub errors_length: usize,
    /// The number of octets that the next output needs in its buffer (0 unless the buffers were too
    /// small).
    pub output_needed: usize,
    /// The number of octets that the next fault line needs in its buffer (0 unless the buffers were
    /// too small).
    pub errors_needed: usize,
    /// The number of messages or documents that the call accepted.
    pub accepted: u64,
    /// The number of messages or documents that the call rejected, plus the number of stray `BUFR`
    /// words that it found.
    pub refused: u64,
    /// Reserved for future versions. The value is always 0.
    pub reserved: u64,
}

impl Texts {
    /// Returns the initial progress of a call that starts at offset `at`.
    pub(crate) fn at(at: usize) -> Texts
        ensures at { result.at ≡ at }
        ensures output { result.output_length ≡ 0 }
        ensures errors { result.errors_length ≡ 0 }
        ensures accepted { result.accepted ≡ 0 }
        ensures refused { result.refused ≡ 0 }
        ensures reserved { result.reserved ≡ 0 }
    {
        Texts {
            at,
            output_length: 0,
            errors_length: 0,
            output_needed: 0,
            errors_needed: 0,
            accepted: 0,
            refused: 0,
            reserved: 0,
        }
    }
}
