// The number of a kind in a word.
ghost use Rattle.std.specs.Prelude.{length};
ghost use Rattle.model.specs.Numbers.{kind_number, kind_from, kinds};
ghost use Rattle.std.proofs.Common.{rules};

use crate::numbered::Numbered;
use model::types::Kind;

impl Numbered for Kind {
    ghost number = { kind_number };

    ghost meant = { kind_from };

    ghost COUNT = { length kinds };

    const COUNT: u32 = Kind::KINDS;

    fn number(self) -> u32 {
        self as u32
    }

    fn from_number(word: u32) -> Self {
        match word {
            0 => Kind::Idle,
            1 => Kind::Put,
            2 => Kind::Get,
            3.. => Kind::Scan,
        }
    }

    ghost back = { Prim.search rules };

    ghost below = { Prim.search rules };
}
