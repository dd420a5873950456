//! A disk in memory, which keeps all its calls, so that its images are exactly those that the rules
//! allow.
ghost use Rattle.std.specs.Prelude.{◌≡◌, ◌+◌, ◌≤◌, ◌^◌, IsErr, IsTrue, IfOk, OnOk, Some, drop, length, take};
ghost use Rattle.decimal_rank.specs.Outputs.FailurePlans.{count_more as one_more, fails_next};
ghost use Rattle.disk_model.specs.Calls.{AreImagesOf};
ghost use Rattle.disk_model.specs.Disks.{Alone, CutShort, Torn};
ghost use Rattle.disk_model.specs.MemoryDisks.{LeavesAll, after_disk_call, before_calls, content_of, told_by};

use crate::disk_calls::DiskCall;
use crate::disks::Disk;
use crate::held_bytes::HeldBytes;
use decimal_rank::{Failed, FailurePlan, Memory, count_more};
use std::marker::Model;

/// A disk in memory. Contracts see the content at its start, the calls that did their work, and
/// those that are to fail.
pub struct MemoryDisk {
    held: HeldBytes,
    plan: FailurePlan,
    faults: u64,
    wants: u64,
}

impl Model for MemoryDisk {
    ghost use Rattle.disk_model.specs.MemoryDisks.{MemoryDiskState};

    ghost Value = { MemoryDiskState };

    ghost view = { λ disk. record {
      held = disk.held;
      plan = disk.plan;
      faults = disk.faults;
      wants = disk.wants;
    } };
}

// a call of its own, so that no caller's proof takes a disk apart
impl Drop for MemoryDisk {
    fn drop(self) {
        let MemoryDisk {
            held: _,
            plan: _,
            faults: _,
            wants: _,
        } = self;
    }
}

impl MemoryDisk {
    /// A disk with these bytes, all of them synced. The calls that are to fail are given by their
    /// places, from 1. It takes no memory.
    pub fn new(content: Vec<u8>, fails: Vec<u64>) -> MemoryDisk
        ensures begun { result ≡ before_calls content.items fails.items }
        ensures content { (⟦<MemoryDisk as Disk>⟧.seen result).content ≡ Some content.items }
        ensures synced { Alone (⟦<MemoryDisk as Disk>⟧.seen result) }
        ensures faults { (⟦<MemoryDisk as Disk>⟧.seen result).faults ≡ 0 }
    {
        MemoryDisk {
            held: HeldBytes::new(content),
            plan: FailurePlan::new(fails),
            faults: 0,
            wants: 0,
        }
    }

    /// What a read gives.
    pub fn content(&self) -> &[u8]
        ensures bytes { result.now ≡ content_of self.now.held }
        ensures content { (⟦<MemoryDisk as Disk>⟧.seen self.now).content ≡ Some result.now }
    {
        self.held.content()
    }

    /// The calls that did their work, in order. What a crash may leave is exactly what the rules
    /// allow of them.
    pub fn calls(&self) -> &[DiskCall]
        ensures calls { result.now ≡ self.now.held.calls }
        ensures images { AreImagesOf result.now (⟦<MemoryDisk as Disk>⟧.seen self.now) }
    {
        self.held.calls()
    }

    /// How many calls failed for want of memory.
    pub fn wants(&self) -> u64
        ensures { result ≡ self.now.wants }
    {
        self.wants
    }

    /// Counts a fault.
    fn fault(&mut self) -> Failed
        ensures { self.new ≡ record self.old { faults = one_more self.old.faults } }
    {
        self.faults = count_more(self.faults);
        Failed
    }

    /// Counts a fault for want of memory.
    fn want(&mut self) -> Failed
        ensures { self.new ≡ record self.old {
          faults = one_more self.old.faults;
          wants = one_more self.old.wants;
        } }
    {
        self.wants = count_more(self.wants);
        self.fault()
    }
}

impl Disk for MemoryDisk {
    ghost use Rattle.std.proofs.Common.{inl, refl};
    ghost use Rattle.disk_model.specs.Calls.{now_among, only_now_left};

    ghost seen = { told_by };

    /// A call that is to fail changes the counts alone; another one fails only for want of memory.
    fn len(&mut self) -> Result<u64, Failed>
        ensures told { IfOk result (λ count. count ≡ length (content_of self.old.held)) }
        ensures failed { IsTrue (fails_next self.old.plan) → IsErr result }
        ensures after { self.new ≡ after_disk_call self.old DiskCall.Len result }
    {
        if self.plan.call() {
            return Err(self.fault());
        }
        match self.held.note(DiskCall::Len) {
            Ok(()) => Ok(self.held.content().len() as u64),
            Err(Memory) => Err(self.want()),
        }
    }

    /// Likewise.
    fn read(&mut self, place: u64, out: &mut [u8]) -> Result<(), Failed>
        requires { place + length out.old ≤ length (content_of self.old.held) }
        ensures told { OnOk result
            (out.new ≡ take (length out.old) (drop place (content_of self.old.held))) }
        ensures failed { IsTrue (fails_next self.old.plan) → IsErr result }
        ensures after { self.new
            ≡ after_disk_call self.old (DiskCall.Read place (length out.old)) result }
    {
        if self.plan.call() {
            return Err(self.fault());
        }
        let count = out.len();
        match self.held.note(DiskCall::Read { place, count }) {
            Ok(()) => {
                let place = place as usize;
                out.copy_from_slice(&self.held.content()[place..place + count]);
                Ok(())
            }
            Err(Memory) => Err(self.want()),
        }
    }

    /// Likewise.
    fn write_at(&mut self, place: u64, piece: &[u8]) -> Result<(), Failed>
        requires within { place ≤ length (content_of self.old.held) }
        requires room { place + length piece.now ≤ 2 ^ 40 }
        ensures failed { IsTrue (fails_next self.old.plan) → IsErr result }
        ensures after { self.new
            ≡ after_disk_call self.old (DiskCall.Write place piece.now) result }
        ensures torn { OnOk result (LeavesAll (Torn place (length piece.now))
            (told_by self.old).images (told_by self.new).images) }
    {
        if self.plan.call() {
            return Err(self.fault());
        }
        match self.held.write(place, piece) {
            Ok(()) => Ok(()),
            Err(Memory) => Err(self.want()),
        }
    }

    /// Likewise.
    fn cut(&mut self, to: u64) -> Result<(), Failed>
        requires { to ≤ length (content_of self.old.held) }
        ensures failed { IsTrue (fails_next self.old.plan) → IsErr result }
        ensures after { self.new ≡ after_disk_call self.old (DiskCall.Cut to) result }
        ensures torn { OnOk result (LeavesAll (CutShort to)
            (told_by self.old).images (told_by self.new).images) }
    {
        if self.plan.call() {
            return Err(self.fault());
        }
        match self.held.cut(to) {
            Ok(()) => Ok(()),
            Err(Memory) => Err(self.want()),
        }
    }

    /// Likewise.
    fn sync(&mut self) -> Result<(), Failed>
        ensures failed { IsTrue (fails_next self.old.plan) → IsErr result }
        ensures after { self.new ≡ after_disk_call self.old DiskCall.Sync result }
    {
        if self.plan.call() {
            return Err(self.fault());
        }
        match self.held.note(DiskCall::Sync) {
            Ok(()) => Ok(()),
            Err(Memory) => Err(self.want()),
        }
    }

    fn faults(&self) -> u64 {
        self.faults
    }

    ghost tells_alike = { λ _ _. refl };

    ghost reads_as_image = { λ disk. inl refl };

    ghost counts_now = { λ disk. now_among disk.held.calls disk.held.start };

    ghost only_now = { λ disk. only_now_left disk.held.calls disk.held.start };
}
