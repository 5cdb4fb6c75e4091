// The papers' number of each refusal; the number of each answer, kind and phase in a word, and what such a number means.
#![tactic(auto)]

ghost use Rattle.std.specs.Prelude.{◌≡◌};
ghost use Rattle.model.specs.Numbers.{number_of};

use model::types::Refusal;

pub mod answer;
pub mod kind;
pub mod numbered;
pub mod phase;

#[tactic(auto, unfolding(model::specs::Numbers::number_of))]
pub fn number_of(refusal: Refusal) -> u32
    ensures { result ≡ number_of refusal }
{
    refusal as u32
}
