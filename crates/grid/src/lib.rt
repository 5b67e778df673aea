// FORMAT 8.3, elevation_grid: the points and the quads of a grid, in the tables of the working slice, and the textures of its corners (FORMAT 7.3, 7.4).
#![tactic(auto)]

mod points;
mod quads;
mod sided;
mod textures;

pub use sided::GridBlock;
