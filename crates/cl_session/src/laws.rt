//! What holds above the step, in every transcript. The contracts are the laws.
ghost use Rattle.cl_session.specs.Laws.{AreCountedByFaults, AreCurrentAlways, AreDetermined, IsTakenBack, IsToldByLines, IsUnchangedByFailure};

/// In every world of a transcript, from one whose panes are blank or show their displays on, each pane is
/// blank or has the script of its display on that world's own slots; and the world at the opening is such
/// a one.
pub fn panes_show_their_displays()
    ensures { AreCurrentAlways }
{}

/// Two transcripts of the same lines from one world, in which nothing met want of memory and no device
/// failed, have the same bytes and the same worlds, and the ledger rises by the same.
pub fn want_of_memory_is_all_freedom()
    ensures { AreDetermined }
{}

/// Equal lines of one gesture from one world mean the same next world.
pub fn what_met_want_of_memory_is_told()
    ensures { IsToldByLines }
{}

/// A gesture whose handling met want of memory, or whose command trapped, leaves the slots and the line as
/// they were.
pub fn failed_commands_change_nothing()
    ensures { IsUnchangedByFailure }
{}

/// A byte that is typed where the line has room for it, and rubbed out, leaves everything as it was.
pub fn rubout_takes_back_what_was_typed()
    ensures { IsTakenBack }
{}

/// In every transcript there are at most as many lines `! wire` as the device's count of faults rose by, unless that
/// count stands at 2^64 - 1.
pub fn wire_faults_are_counted()
    ensures { AreCountedByFaults }
{}
