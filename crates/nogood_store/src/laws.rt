//! The laws of a store and a trail that match.

ghost use Rattle.nogood_store.specs.Laws.{NewMatch, GivenKeeps, OpenedKeeps, JumpedKeeps, ExplainedKeeps, AddedKeeps, ReservedKeeps, ForgottenKeeps, MarkedMatch, IsMet};

/// What keeps a store and a trail matched: each call of a trail but `mark`, and one more nogood; when a trail may be marked; and what a
/// match gives.
pub fn matching_laws()
    ensures new_match { NewMatch }
    ensures given_keeps { GivenKeeps }
    ensures opened_keeps { OpenedKeeps }
    ensures jumped_keeps { JumpedKeeps }
    ensures explained_keeps { ExplainedKeeps }
    ensures added_keeps { AddedKeeps }
    ensures reserved_keeps { ReservedKeeps }
    ensures forgotten_keeps { ForgottenKeeps }
    ensures marked_match { MarkedMatch }
    ensures is_met { IsMet }
{}
