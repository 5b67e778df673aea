// FORMAT 17.7: a sphere as it is read.
ghost use Rattle.std.specs.Prelude.{◌≤◌};

// The radius, n slices and k stacks.
#[derive(Clone, Copy)]
pub struct Ball {
    pub r: f32,
    pub n: usize,
    pub k: usize,
    ghost few_slices: { n ≤ 1024 },
    ghost two_stacks: { 2 ≤ k },
    ghost few_stacks: { k ≤ 1024 },
}
