//! The history of a pane.
use cl_medium::AnyLeaf;

/// What a pane's display drew (CLIM II specification, output recording).
pub type History = cl_record::History<AnyLeaf>;
