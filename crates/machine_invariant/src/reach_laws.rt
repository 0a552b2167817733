//! The laws of how far a step reaches.
ghost use Rattle.machine_invariant.specs.Reach.{EndsEarlierNamed, GoneByNote, NobodyStays, NotedAtSubmission, OthersStay, RequestsStay};

/// A step changes no part but its owner's, and none where it has no owner: another client's retirement or task management
/// changes no byte, no TD and no reply of this one.
pub fn others_stay()
    ensures others { OthersStay }
    ensures nobody { NobodyStays }
{}

/// A command is gone only as a task management of its own client that noted its ticket is received. What is noted is what
/// the client held when it submitted the task management, and stays so: a later command on the same tag isn't reached.
pub fn notes_reach_their_tickets()
    ensures gone { GoneByNote }
    ensures earlier { EndsEarlierNamed }
    ensures same { RequestsStay }
    ensures noted { NotedAtSubmission }
{}
