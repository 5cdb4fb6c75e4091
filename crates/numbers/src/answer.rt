// The number of an answer in a word.
ghost use Rattle.std.specs.Prelude.{length};
ghost use Rattle.model.specs.Numbers.{answer_number, answer_of, answers};
ghost use Rattle.model.proofs.Laws.{answer_at, answer_below};

use crate::numbered::Numbered;
use model::types::Answer;

impl Numbered for Answer {
    ghost number = { answer_number };

    ghost meant = { answer_of };

    ghost COUNT = { length answers };

    const COUNT: u32 = Answer::ANSWERS;

    #[tactic(auto, unfolding(model::specs::Numbers::answer_number))]
    fn number(self) -> u32 {
        self as u32
    }

    fn from_number(word: u32) -> Self {
        match word {
            0 => Answer::TooOld,
            1 => Answer::VersionsFull,
            2 => Answer::Added,
            3 => Answer::KeysFull,
            4 => Answer::New,
            5 => Answer::Found,
            6 => Answer::None,
            7.. => Answer::Swept,
        }
    }

    ghost back = { answer_at };

    ghost below = { answer_below };
}
