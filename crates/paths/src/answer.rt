// FORMAT 19.3: what a call answers.
ghost use Rattle.std.specs.Prelude.{◌≡◌};
ghost use Rattle.paths.specs.Paths.{number_of, refusal_number};

// The one refusal of this call.
#[derive(Clone, Copy)]
pub struct PathsRefusal;

pub type PathsAnswer = Result<(), PathsRefusal>;

// Its number.
impl From<PathsRefusal> for u32 {
    ghost from_gives = { λ _ n. n ≡ refusal_number };

    fn from(_refusal: PathsRefusal) -> u32 {
        12
    }
}

// Of an answer: 12 for the refusal, 0 where nothing is refused.
pub fn number_of(answer: PathsAnswer) -> u32
    ensures { result ≡ number_of answer }
{
    match answer {
        Err(refusal) => u32::from(refusal),
        Ok(()) => 0,
    }
}
