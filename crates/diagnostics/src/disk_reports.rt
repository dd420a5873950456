//! A disk that tells on standard error that a new journal is begun on it.
use disk_model::{Disk, Failed};

/// A disk, and standard error. A journal is begun by a write at its first byte; it is told once
/// that is synced.
#[derive(Drop)]
pub struct ReportingDisk<D: Disk, E: Eprint> {
    disk: D,
    errors: E,
    is_begun: bool,
}

impl<D: Disk, E: Eprint> ReportingDisk<D, E> {
    /// No journal is begun on it yet.
    pub fn new(disk: D, errors: E) -> ReportingDisk<D, E> {
        ReportingDisk {
            disk,
            errors,
            is_begun: false,
        }
    }
}

impl<D: Disk, E: Eprint> Disk for ReportingDisk<D, E> {
    ghost seen = { λ it. D.seen it.disk };

    fn len(&mut self) -> Result<u64, Failed> {
        self.disk.len()
    }

    fn read(&mut self, place: u64, out: &mut [u8]) -> Result<(), Failed> {
        self.disk.read(place, out)
    }

    fn write_at(&mut self, place: u64, piece: &[u8]) -> Result<(), Failed> {
        let written = self.disk.write_at(place, piece);
        self.is_begun = self.is_begun || place == 0 && written.is_ok();
        written
    }

    fn cut(&mut self, to: u64) -> Result<(), Failed> {
        self.disk.cut(to)
    }

    fn sync(&mut self) -> Result<(), Failed> {
        let synced = self.disk.sync();
        if self.is_begun && synced.is_ok() {
            self.is_begun = false;
            let _ = self
                .errors
                .eprintln("campaign: a new journal is begun in campaign.journal");
        }
        synced
    }

    fn faults(&self) -> u64 {
        self.disk.faults()
    }

    ghost tells_alike = { λ a b. D.tells_alike a.disk b.disk };

    ghost reads_as_image = { λ it. D.reads_as_image it.disk };

    ghost counts_now = { λ it. D.counts_now it.disk };

    ghost only_now = { λ it. D.only_now it.disk };
}
