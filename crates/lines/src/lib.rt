// Line sets (FORMAT 6.3, 8.2; indexed_line_set): how many corners and lines there are, the corners listed, the lines in pairs, and the whole mesh.
#![tactic(auto)]

mod listing;
mod pairing;
mod totals;
mod whole;

pub use listing::list_entries;
pub use pairing::put_lines;
pub use totals::{LineTotals, line_totals};
pub use whole::make_lines;
