//! What a campaign tells of a run once it is released.
ghost use Rattle.std.specs.Prelude.{◌≡◌, IfOk};

use decimal_rank::{Memory, Text};
use measures::Summary;

/// A run of a campaign: its name, the name of the group that submitted it, and its sums and means.
#[derive(Debug, PartialEq)]
pub struct System {
    pub run: Text,
    pub group: Text,
    pub summary: Summary,
}

// a call of its own, so that no caller's proof takes a system apart
impl Drop for System {
    fn drop(self) {
        let System {
            run: _,
            group: _,
            summary: _,
        } = self;
    }
}

impl System {
    /// The same again.
    pub fn copy(&self) -> Result<System, Memory>
        ensures { IfOk result (λ copy. copy ≡ self.now) }
    {
        Ok(System {
            run: self.run.copy()?,
            group: self.group.copy()?,
            summary: self.summary,
        })
    }
}
