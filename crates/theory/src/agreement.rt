// The rounds, and the round from which on nothing changes.
ghost use Rattle.std.specs.Prelude.{◌≡◌};
ghost use Rattle.theory.specs.Theorems.{AgreeFalls, AgreeReflexive, AgreeSymmetric, AgreeTransitive, AgreeDecided, BisimilarAgree, RelatedAgree, StableBisimulation, StableRelated, StablePersists, StableSame, RoundsExist, RoundsDetermined, LawfulInside, AllClosed, AllCounted};

use crate::bisimilarity::Relation;

pub fn agreement_is_a_falling_decidable_equivalence() -> u8
    ensures value { result ≡ 0 }
    ensures falls { AgreeFalls }
    ensures reflexive { AgreeReflexive }
    ensures symmetric { AgreeSymmetric }
    ensures transitive { AgreeTransitive }
    ensures decided { AgreeDecided }
{
    0
}

pub fn related_states_agree_at_every_round() -> u8
    ensures value { result ≡ 0 }
    ensures agree { RelatedAgree }
{
    0
}

// The same of a bisimulation of any kind.
pub fn bisimilar_states_agree_at_every_round<R: Relation>() -> u8
    ensures value { result ≡ 0 }
    ensures agree { BisimilarAgree R.Relation.relates }
{
    0
}

pub fn stable_agreement_is_a_bisimulation() -> u8
    ensures value { result ≡ 0 }
    ensures bisimulation { StableBisimulation }
    ensures related { StableRelated }
{
    0
}

pub fn stability_persists() -> u8
    ensures value { result ≡ 0 }
    ensures persists { StablePersists }
    ensures same { StableSame }
{
    0
}

// Of N states, the least stable round is at most N - 1.
pub fn least_stable_round_exists() -> u8
    ensures value { result ≡ 0 }
    ensures exists { RoundsExist }
    ensures determined { RoundsDetermined }
{
    0
}

pub fn all_states_are_a_closed_set() -> u8
    ensures value { result ≡ 0 }
    ensures lawful { LawfulInside }
    ensures closed { AllClosed }
    ensures counted { AllCounted }
{
    0
}
