//! The laws of queues and groups.

ghost use Rattle.pending_queue.specs.Laws.{GroupsKeepEntries};

/// A group that is put in order has the same entries, each as often.
pub fn groups_keep_entries()
    ensures { GroupsKeepEntries }
{}
