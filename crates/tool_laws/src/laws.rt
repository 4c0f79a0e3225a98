//! What a play leaves of a transaction before its commit.
ghost use Rattle.tool_laws.specs.Unplayed.{UncommittedIsUnplayed};

use session_laws::staged;
use tool_forms::tags_are_runs;

/// A transaction that has not been asked to commit leaves the journal of a play alone: of the entries that a tag's session made there, none
/// that it made while the transaction was open changes what is at keys.
pub fn uncommitted_is_unplayed()
    ensures { UncommittedIsUnplayed }
{
    tags_are_runs();
    staged();
}
