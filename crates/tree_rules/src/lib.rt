//! The rules of interval tree clocks, over ids and event trees as the
//! literature writes them, and what is proved of these rules. There is nothing
//! to run here: `tree_clock` carries the rules out on stored trees.

#![tactic(auto)]

ghost use Rattle.clock.specs.Sound.{Sound};
ghost use Rattle.tree_rules.specs.GrowRules.{EventRules, FillRules, GrowRules};
ghost use Rattle.tree_rules.specs.IdRules.{SplitRules, SumRules};
ghost use Rattle.tree_rules.specs.JoinRules.{JoinRules};
ghost use Rattle.tree_rules.specs.Kind.{tree};
ghost use Rattle.tree_rules.specs.Laws.{CanonicalIds, CanonicalTrees};
ghost use Rattle.tree_rules.specs.NormRules.{NormRules};

/// The definitions are the published rules, a normal form is the only one of
/// its marks, and ids and event trees with these rules are a sound clock kind.
pub fn rules_hold()
    ensures norm { NormRules }
    ensures split { SplitRules }
    ensures sum { SumRules }
    ensures join { JoinRules }
    ensures fill { FillRules }
    ensures grow { GrowRules }
    ensures event { EventRules }
    ensures canonical { (CanonicalTrees) × (CanonicalIds) }
    ensures sound { Sound tree }
{}
