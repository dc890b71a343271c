//! Where a seat stands in its call: each activity is of one stage.
//!
//! A call goes through its stages in their order; a scan comes back from the cells of a row to the
//! walk. What holds of a seat is mostly said by stages (`specs/Stages.antt`), and code that goes on
//! as long as a stage lasts asks for it here.
ghost use Rattle.std.specs.Prelude.{◌≡◌};
ghost use Rattle.kw_core.specs.Stages.{stage_of, is_walking_stage, is_putting_stage};

use kw_world::activity::Activity;

/// A stage of a call.
#[derive(Clone, Copy, Debug, PartialEq, Eq)]
pub enum Stage {
    /// The seat makes no call.
    Resting,

    /// It announces its epoch.
    Entering,

    /// A scan gets its version.
    Drawing,

    /// It walks to the row of the wanted key.
    Walking,

    /// A get or a scan looks at the entries of the row.
    Looking,

    /// A get or a scan walks along the row's list, and reads the remembered cells that it did not
    /// reach.
    Taking,

    /// A scan is over, and clears its word.
    Clearing,

    /// A put or a delete is at its row.
    Putting,

    /// It rebalances its row, which is full.
    Rebalancing,

    /// A put or a delete takes its announced epoch back, to try again.
    Retrying,

    /// The call ends.
    Leaving,
}

impl Stage {
    /// The stage of an activity.
    pub fn of(activity: &Activity) -> Stage
        ensures { result ≡ stage_of activity.now }
    {
        match activity {
            Activity::Idle => Stage::Resting,
            Activity::Enter(_) => Stage::Entering,
            Activity::Draw(_) => Stage::Drawing,
            Activity::Walk(_) => Stage::Walking,
            Activity::Look(_) => Stage::Looking,
            Activity::Read(_) => Stage::Taking,
            Activity::EndScan(_) | Activity::ClearPin => Stage::Clearing,
            Activity::Put(_) | Activity::Insert(_) => Stage::Putting,
            Activity::Rebalance(_) => Stage::Rebalancing,
            Activity::Retry => Stage::Retrying,
            Activity::Leave(_) => Stage::Leaving,
        }
    }

    /// Whether the call walks to the row of the wanted key.
    pub fn is_walking(self) -> bool
        ensures { result ≡ is_walking_stage self }
    {
        match self {
            Stage::Walking => true,
            _ => false,
        }
    }

    /// Whether a put or a delete is at its row.
    pub fn is_putting(self) -> bool
        ensures { result ≡ is_putting_stage self }
    {
        match self {
            Stage::Putting => true,
            _ => false,
        }
    }
}
