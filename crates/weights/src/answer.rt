// What a store answers for a day.
ghost use Rattle.std.specs.Prelude.{◌≡◌};
ghost use Rattle.weights.specs.Answers.{used_by};

use components::Strategy;

// The six weights in slot order, named as a policy record's, of which the definitions speak.
#[derive(Clone, Copy)]
pub struct SixWeights {
    pub w0: f64,
    pub w1: f64,
    pub w2: f64,
    pub w3: f64,
    pub w4: f64,
    pub w5: f64,
}

const NONE: SixWeights = SixWeights {
    w0: 0.0,
    w1: 0.0,
    w2: 0.0,
    w3: 0.0,
    w4: 0.0,
    w5: 0.0,
};

impl SixWeights {
    // The six as a policy record of the strategy holds them: those that it leaves unused are zero.
    pub fn for_strategy(self, strategy: Strategy) -> SixWeights
        ensures { result ≡ used_by strategy self }
    {
        match strategy {
            Strategy::Etd => SixWeights { w5: 0.0, ..self },
            Strategy::Rsr => self,
            Strategy::Scan | Strategy::Unknown => NONE,
        }
    }
}
