// Formulas against bisimulations and rounds.
ghost use Rattle.std.specs.Prelude.{◌≡◌};
ghost use Rattle.theory.specs.Theorems.{BisimilarFormulas, RelatedFormulas, SeparatedUnrelated, AgreeFormulas, SeparatedDisagree, SeparatedDepth, JoinedLeft, JoinedRight, JoinedSeparates};

use crate::bisimilarity::Relation;

pub fn related_states_satisfy_the_same_formulas() -> u8
    ensures value { result ≡ 0 }
    ensures same { RelatedFormulas }
{
    0
}

// The same of a bisimulation of any kind, decidable or not: it relates no separated pair.
pub fn none_relates_a_separated_pair<R: Relation>() -> u8
    ensures value { result ≡ 0 }
    ensures same { BisimilarFormulas R.Relation.relates }
    ensures unrelated { SeparatedUnrelated R.Relation.relates }
{
    0
}

// Of depth at most the round.
pub fn agreeing_states_satisfy_the_same_formulas() -> u8
    ensures value { result ≡ 0 }
    ensures same { AgreeFormulas }
{
    0
}

pub fn separating_depth_is_at_least_the_first_disagreement() -> u8
    ensures value { result ≡ 0 }
    ensures disagree { SeparatedDisagree }
    ensures depth { SeparatedDepth }
{
    0
}

pub fn formulas_hold_as_in_the_joined_procedure() -> u8
    ensures value { result ≡ 0 }
    ensures left { JoinedLeft }
    ensures right { JoinedRight }
    ensures separates { JoinedSeparates }
{
    0
}
