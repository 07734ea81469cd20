//! Which words refuse an acquisition.
ghost use Rattle.std.specs.Prelude.{◌≡◌};
ghost use Rattle.hall.specs.Plays.{conflicts_for_shared, conflicts_for_announcing, conflicts_for_finishing};

use lock_model::Policy;
use state_word::Word;

/// A reader can't enter: HELD is set, or under write priority BEGUN.
pub fn conflicts_for_shared(policy: Policy, word: Word) -> bool
    ensures { result ≡ conflicts_for_shared policy word }
{
    match policy {
        Policy::WritePriority => word.held() || word.begun(),
        Policy::ReadPriority => word.held(),
    }
}

/// A writer can't be announced, and upgrade can't be taken: UPGRADE, BEGUN or HELD is set.
pub fn conflicts_for_announcing(word: Word) -> bool
    ensures { result ≡ conflicts_for_announcing word }
{
    word.upgrade() || word.begun() || word.held()
}

/// An announced writer can't finish: the count isn't 0.
pub fn conflicts_for_finishing(word: Word) -> bool
    ensures { result ≡ conflicts_for_finishing word }
{
    word.count() != 0
}
