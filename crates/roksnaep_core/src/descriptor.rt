// The bytes that the host passes on.
ghost use Rattle.std.specs.Prelude.{◌≡◌, ◌≤◌, IfOk, length};

use byte_streams::{Failed, Source};
use std::fs::{self, File};
use std::io::{self, Read};

/// Reads what the descriptor 3 of the process gives. It is opened at the first call, so that nothing waits for it
/// before it is read; that it cannot be opened is a fault, as each error is.
#[derive(Drop)]
pub struct Descriptor<'a> {
    rt: &'a HostRuntime,
    file: Option<File>,
    faults: u64,
}

impl<'a> Descriptor<'a> {
    pub fn new(rt: &'a HostRuntime) -> Descriptor<'a> {
        Descriptor {
            rt,
            file: None,
            faults: 0,
        }
    }

    fn read(&mut self, room: &mut [u8]) -> io::Result<usize>
        ensures most { IfOk result (λ n. n ≤ length room.new) }
        ensures faults { self.new.faults ≡ self.old.faults }
    {
        let mut file = match self.file.take() {
            Some(file) => file,
            None => fs::open(self.rt, "/dev/fd/3")?,
        };
        let count = file.read(room);
        self.file = Some(file);
        count
    }
}

impl Source for Descriptor<'_> {
    ghost use Rattle.roksnaep_core.specs.Descriptor.{source_state};

    ghost state = { source_state };

    fn take(&mut self, room: &mut [u8]) -> Result<usize, Failed> {
        match self.read(room) {
            Ok(count) => Ok(count),
            Err(_) => {
                self.faults = self.faults.saturating_add(1);
                Err(Failed)
            }
        }
    }

    fn faults(&self) -> u64 {
        self.faults
    }
}
