// FORMAT 8.3, 8.4: the points of a grid and of an extrusion stand in rows.
ghost use Rattle.std.specs.Prelude.{◌≡◌, ◌^◌, ◌<◌};
ghost use Rattle.mesh.specs.Extrusion.{point_number};

use block::PointNumber;

// The point in a row and a column, of rows of `width`.
pub fn point_at(width: usize, row: usize, column: usize) -> PointNumber
    requires { point_number width row column < 2 ^ 64 }
    ensures { result.0 ≡ point_number width row column }
{
    PointNumber(row * width + column)
}
