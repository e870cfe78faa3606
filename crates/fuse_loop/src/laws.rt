//! What a session of a desk that is read alone tells.
ghost use Rattle.std.specs.Prelude.{ℕ, List};
ghost use Rattle.frozen.specs.Kept.{IsKeptOf};
ghost use Rattle.fuse_loop.specs.declared.LeftError.{LeftError as Why};
ghost use Rattle.fuse_loop.specs.Sessions.{Answered, Leaves};
ghost use Rattle.fuse_loop.specs.Viewed.{AllViewed, FailsViewed, StaysViewed, TurnsViewed};
ghost use Rattle.fuse_reader.specs.Desks.{AtDesk};

use device::Device;

/// In a session of a desk that is read alone each message is answered from the one image that the device held all the while, and
/// nothing is written.
pub fn sessions_of_a_desk_that_reads<D: Device>()
    ensures answered { (old new : AtDesk D) (messages replies : List (List ℕ)) → Answered (TurnsViewed D.honest D.image D.held D.failures) old messages replies new
        → D.honest new.device → IsKeptOf old.kept (D.image old.device)
        → AllViewed old.kept (D.image old.device) old.owner old.nodes (D.failures old.device) messages replies new.nodes (D.failures new.device) }
    ensures stays { (old new : AtDesk D) (messages replies : List (List ℕ)) → Answered (TurnsViewed D.honest D.image D.held D.failures) old messages replies new
        → StaysViewed D.honest D.image D.held old new }
    ensures left { (old new : AtDesk D) (taken given new_taken new_given : List (List ℕ)) (why : Why)
        → Leaves (TurnsViewed D.honest D.image D.held D.failures) (FailsViewed D.honest D.image D.held D.failures) old taken given new_taken new_given why new
        → StaysViewed D.honest D.image D.held old new }
{}
