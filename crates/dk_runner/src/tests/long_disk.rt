// A disk whose file is longer than a restart file may be.
use super::benches::fail;
use dk_outside::{Disk, Failed};

/// The file has so many bytes. They can't be read or written.
#[derive(Drop)]
pub struct LongDisk {
    length: u64,
    faults: u64,
}

impl LongDisk {
    pub fn of(length: u64) -> LongDisk {
        LongDisk { length, faults: 0 }
    }

    /// How often it failed.
    pub fn faults(&self) -> u64 {
        self.faults
    }
}

impl Disk for LongDisk {
    ghost use Rattle.std.specs.Prelude.{None};

    ghost told = { λ _. None };

    ghost faults = { λ disk. disk.faults };

    ghost shows = { λ _. tt };

    fn length(&mut self) -> Result<u64, Failed> {
        Ok(self.length)
    }

    fn read_at(&mut self, _at: u64, _buf: &mut [u8]) -> Result<usize, Failed> {
        Err(fail(&mut self.faults))
    }

    fn write_at(&mut self, _at: u64, _bytes: &[u8]) -> Result<(), Failed> {
        Err(fail(&mut self.faults))
    }

    fn sync(&mut self) -> Result<(), Failed> {
        Ok(())
    }
}
