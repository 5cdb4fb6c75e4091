// The number of a phase in a word.
ghost use Rattle.std.specs.Prelude.{length};
ghost use Rattle.model.specs.Numbers.{phase_number, phase_from, phases};
ghost use Rattle.std.proofs.Common.{rules};

use crate::numbered::Numbered;
use model::types::Phase;

impl Numbered for Phase {
    ghost number = { phase_number };

    ghost meant = { phase_from };

    ghost COUNT = { length phases };

    const COUNT: u32 = Phase::PHASES;

    fn number(self) -> u32 {
        self as u32
    }

    fn from_number(word: u32) -> Self {
        match word {
            0 => Phase::Walk,
            1 => Phase::Read,
            2 => Phase::Seek,
            3 => Phase::Lock,
            4 => Phase::Check,
            5 => Phase::Update,
            6 => Phase::Make,
            7 => Phase::Link,
            8 => Phase::Release,
            9.. => Phase::Follow,
        }
    }

    ghost back = { Prim.search rules };

    ghost below = { Prim.search rules };
}
