// FORMAT 19.3: what is refused.
ghost use Rattle.std.specs.Prelude.{◌≡◌, leb};
ghost use Rattle.lists.specs.Loops.{any};
ghost use Rattle.paths.specs.Paths.{is_refused};

// Whether an index names none of n vertices.
fn any_beyond(n: usize, indices: &[u32]) -> bool
    ensures { result ≡ any (leb n) indices.now }
{
    indices.iter().any(|i| n <= *i as usize)
}

// With `room` answers lent. One ground after another, as FORMAT 19.3 lists them: in one chain of || (tried) two goals stay open, each with all joins before it.
pub fn is_refused(positions: &[u32], indices: &[u32], paths: &[u32], room: usize) -> bool
    ensures { result ≡ is_refused positions.now indices.now
        paths.now room }
{
    if paths.len() % 6 != 0 {
        return true;
    }
    if paths.len() / 6 > 64 {
        return true;
    }
    if paths.len() / 6 > room {
        return true;
    }
    if positions.len() % 3 != 0 {
        return true;
    }
    if indices.len() % 3 != 0 {
        return true;
    }
    any_beyond(positions.len() / 3, indices)
}
