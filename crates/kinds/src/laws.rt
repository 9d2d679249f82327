//! The rules of kinds and books as theorems: each function's contract is one, and its code does nothing.

ghost use Rattle.kinds.specs.Laws.{KindRules, SealedRules};

/// The rules of a kind hold of every kind and of nothing else.
pub fn kind_rules_hold()
    ensures { KindRules }
{}

/// Every sealed book has at most 16 kinds, and each keeps the rules.
pub fn sealed_rules_hold()
    ensures { SealedRules }
{}
