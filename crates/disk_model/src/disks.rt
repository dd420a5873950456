//! The disk: five calls, and what each may leave of the bytes where it is cut short.
ghost use Rattle.std.specs.Prelude.{◌≡◌, ℕ, ◌+◌, ◌≤◌, ◌^◌, List, length, take, drop, is_some, IfOk, IfSome, OnOk};
ghost use Rattle.std.specs.Option.{option_map};
ghost use Rattle.decimal_rank.specs.Causes.{HasCause};
ghost use Rattle.disk_model.specs.Disks.{Alone, CutShort, DiskState, Elapses, Follows, NoFurther, OnlyNow, Torn, written};

use decimal_rank::Failed;

/// How many bytes a disk has at most.
pub const MOST_BYTES: u64 = 1 << 40;

/// Bytes that outlast a crash once they are synced. A call that fails may have done its work whole,
/// in part or not at all.
pub trait Disk {
    /// What the disk tells.
    ghost seen: { Self → DiskState };

    /// The number of bytes.
    fn len(&mut self) -> Result<u64, Failed>
        ensures told { IfOk result (λ count.
            IfSome (seen self.old).content (λ bytes. count ≡ length bytes)) }
        ensures content { (seen self.new).content ≡ (seen self.old).content }
        ensures crash { NoFurther (seen self.old).images (seen self.new).images }
        ensures time { Elapses (seen self.old) (seen self.new) }
        ensures cause { HasCause (seen self.old).faults (seen self.new).faults result };

    /// Fills `out` with the bytes from this place on.
    fn read(&mut self, place: u64, out: &mut [u8]) -> Result<(), Failed>
        requires { IfSome (seen self.old).content (λ bytes. place + length out.old ≤ length bytes) }
        ensures told { OnOk result (IfSome (seen self.old).content
            (λ bytes. out.new ≡ take (length out.old) (drop place bytes))) }
        ensures content { (seen self.new).content ≡ (seen self.old).content }
        ensures crash { NoFurther (seen self.old).images (seen self.new).images }
        ensures time { Elapses (seen self.old) (seen self.new) }
        ensures cause { HasCause (seen self.old).faults (seen self.new).faults result };

    /// Writes over what is there, and past the end. Until a sync, a crash may leave any bytes in
    /// the range.
    fn write_at(&mut self, place: u64, piece: &[u8]) -> Result<(), Failed>
        requires within { IfSome (seen self.old).content (λ bytes. place ≤ length bytes) }
        requires room { place + length piece.now ≤ 2 ^ 40 }
        ensures content { OnOk result ((seen self.new).content
            ≡ option_map (written place piece.now) (seen self.old).content) }
        ensures crash { Follows (Torn place (length piece.now))
            (seen self.old).images (seen self.new).images }
        ensures time { Elapses (seen self.old) (seen self.new) }
        ensures cause { HasCause (seen self.old).faults (seen self.new).faults result };

    /// Keeps the first bytes alone. Until a sync, a crash may leave any bytes behind them.
    fn cut(&mut self, to: u64) -> Result<(), Failed>
        requires { IfSome (seen self.old).content (λ bytes. to ≤ length bytes) }
        ensures content { OnOk result
            ((seen self.new).content ≡ option_map (take to) (seen self.old).content) }
        ensures crash { Follows (CutShort to) (seen self.old).images (seen self.new).images }
        ensures time { Elapses (seen self.old) (seen self.new) }
        ensures cause { HasCause (seen self.old).faults (seen self.new).faults result };

    /// After it, a crash leaves what a read gives and nothing else.
    fn sync(&mut self) -> Result<(), Failed>
        ensures alone { OnOk result (Alone (seen self.new)) }
        ensures content { (seen self.new).content ≡ (seen self.old).content }
        ensures crash { NoFurther (seen self.old).images (seen self.new).images }
        ensures time { Elapses (seen self.old) (seen self.new) }
        ensures cause { HasCause (seen self.old).faults (seen self.new).faults result };

    /// How many calls failed. It is no call on the disk.
    fn faults(&self) -> u64
        ensures { result ≡ (seen self.now).faults };

    /// A disk tells its content in each state or in none.
    ghost tells_alike: { (a b : Self) → is_some (seen a).content ≡ is_some (seen b).content };

    /// A disk as it reads is one of its images.
    ghost reads_as_image: { (disk : Self) → IfSome (seen disk).content (seen disk).images };

    /// This moment is one of those since an earlier one.
    ghost counts_now: { (disk : Self) (moment : ℕ) (image : List ℕ) → moment ≤ (seen disk).clock
        → (seen disk).images image → (seen disk).images_since moment image };

    /// Since this moment there is no other.
    ghost only_now: { (disk : Self) → OnlyNow (seen disk) };
}
