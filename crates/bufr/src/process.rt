//! Provides standard input and files as the inputs of the program.
use bufr_bits::BufferedDevice;
use bufr_cli::{BUFFERED, Inputs, OpenFault};
use std::alloc::AllocError;
use std::fs::{self, File};
use std::io::{BufReader, Stdin};

/// The inputs of the process (standard input, and files that are opened by name). Contracts assume
/// nothing about the contents of these inputs.
#[derive(Drop)]
pub struct Process<'a> {
    /// The runtime of the process.
    pub runtime: &'a HostRuntime,
}

impl<'a> Inputs for Process<'a> {
    ghost use Rattle.std.specs.Prelude.{None};

    type Standard = BufferedDevice<Stdin>;

    type File = BufferedDevice<File>;

    ghost standard_octets = { λ _. None };

    ghost file_octets = { λ _ _. None };

    fn standard(&mut self) -> Result<BufferedDevice<Stdin>, AllocError> {
        let stdin = self.runtime.stdin();
        match BufReader::with_capacity(self.runtime.alloc(), BUFFERED, stdin) {
            Ok(reader) => Ok(BufferedDevice::new(reader)),
            Err(_) => Err(AllocError),
        }
    }

    fn open(&mut self, name: &str) -> Result<BufferedDevice<File>, OpenFault> {
        let Ok(file) = fs::open(self.runtime, name) else {
            return Err(OpenFault::CannotOpen);
        };
        match BufReader::with_capacity(self.runtime.alloc(), BUFFERED, file) {
            Ok(reader) => Ok(BufferedDevice::new(reader)),
            Err(_) => Err(OpenFault::Memory),
        }
    }
}
