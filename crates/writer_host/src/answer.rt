// What a host is answered: 0 where what it asked for was done, else a number.
ghost use Rattle.std.specs.Prelude.{◌≡◌};
ghost use Rattle.writer_host.specs.declared.answer.Refused.TheVariants.{Put};
ghost use Rattle.writer_host.specs.Host.{refused_number, answered};

use writer::PutError;

// Why nothing was written.
#[derive(Clone, Copy, Debug, PartialEq, Eq)]
pub enum Refused {
    // what was lent is no state
    NoState,
    Edition,
    // a code stands for nothing, or a field does not hold its number
    Value,
    Put(PutError),
}

impl Refused {
    pub fn number(self) -> u32
        ensures { result ≡ refused_number self }
    {
        match self {
            Refused::NoState => 1,
            Refused::Edition => 3,
            Refused::Value => 8,
            Refused::Put(error) => error.number(),
        }
    }
}

impl From<PutError> for Refused {
    ghost from_gives = { λ error x. x ≡ Put error };

    fn from(error: PutError) -> Refused {
        Refused::Put(error)
    }
}

pub fn number(answer: Result<(), Refused>) -> u32
    ensures { result ≡ answered answer }
{
    match answer {
        Ok(()) => 0,
        Err(refused) => refused.number(),
    }
}
