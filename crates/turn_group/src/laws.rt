//! The law of runs under the turn.

ghost use Rattle.turn_group.specs.Queues.{QueuesFlow};

/// For each controller, the queue at a run's start and after it what the controller's reader gave the queue, both without what drops took
/// out, are the controller's part of the groups and then the queue at the end, in order, each entry once. This holds from every state.
pub fn queues_flow()
    ensures { QueuesFlow }
{}
