// How a call ends for a host (FORMAT 15): a number, and words in the result slice.
ghost use Rattle.std.specs.Prelude.{◌≡◌};
ghost use Rattle.std.proofs.lemmas.List.Edits.{sets};
ghost use Rattle.host.specs.Hosted.{words_of, returned, result_after};

use lent::{Answer, Report};
use lists::put;

fn put_report(res: &mut [usize], p: Report)
    ensures { res.new ≡ sets res.old 0 (words_of p) }
{
    put(res, 0, p.vertices);
    put(res, 1, p.indices);
    put(res, 2, usize::from(p.solid));
    put(res, 3, usize::from(p.unlit));
    put(res, 4, usize::from(p.has_colors));
}

// 0 and the words of what is made; or the number of the refusal, and the result slice as it was.
pub fn answered(a: Answer, res: &mut [usize]) -> u32
    ensures { (result ≡ returned a) × (res.new ≡ result_after a res.old) }
{
    match a {
        Err(no) => u32::from(no),
        Ok(p) => {
            put_report(res, p);
            0
        }
    }
}
