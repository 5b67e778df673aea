// The kept faces of a face set, as tables (FORMAT 6.1, 6.2, 8.1; split_runs, indexed_face_set).
#![tactic(auto)]

mod listing;

pub use listing::{Progress, START, list_faces, put_face, put_row};
