//! What a session answers to a gesture.
use cl_eval::Lines;

/// The replies to one gesture: its own lines, or want of memory in its handling; then come the lines of
/// the panes, by the reports that stand in the session's frame; and last whether the device failed.
#[derive(Drop)]
pub struct Replies {
    pub own: Lines,
    pub memory: bool,
    pub wire: bool,
}
