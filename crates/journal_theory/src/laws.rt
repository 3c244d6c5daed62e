ghost use Rattle.journal_theory.specs.Laws.{ValuesFollow, LevelsAreTold, EachEntryRests, JustifiedIsReason, SettledIsAll, ClosedIsAll, MustBeIsSinceClosed, NogoodsAreSound, SoundStays, LearnedIsSound, JustifiedIsSound, FullIsAnswerSet, FoundAreAnswerSets, NoneIsMissed, ShownOnce, ShownIsNotListed, LearnedIsNew, JustifiedIsNew, KeptOnce, KeptIsNew, ChosenHaveOneHighest, OneHighestJumps, HighestIsNotClosed, WhatMustComeMay, FoundIsNew, HeadsStayOpen, ClosedIsNoProof, FactsAreNotCovered, MustBeIsNotShown, BackRestores, MustBeAgain, ClosedIsNotLearned, UnimpliedIsNotLearned, WideIsAsked, NoRuleIsLeftOut, DecisionsFollowWide};
ghost use Rattle.journal_theory.specs.Counting.{EachStruckIsAnswered, StrikesAreBounded, StrikesAreFew};
ghost use Rattle.journal_theory.specs.Examples.{ExampleIsLegal, ClosingIsLegal, ClosedIsRefused, WideIsLegal};

/// The laws of the search, over all rules and all legal journals. `N` is the type of numberings, `A` that of atoms, `K` that of
/// makers.
pub fn search_laws<N, A, K>()
    ensures values_follow { ValuesFollow N A K }
    ensures levels_are_told { LevelsAreTold N A K }
    ensures each_entry_rests { EachEntryRests N A K }
    ensures justified_is_reason { JustifiedIsReason N A K }
    ensures settled_is_all { SettledIsAll N A K }
    ensures closed_is_all { ClosedIsAll N A K }
    ensures must_be_is_since_closed { MustBeIsSinceClosed N A K }
    ensures nogoods_are_sound { NogoodsAreSound N A K }
    ensures sound_stays { SoundStays N A K }
    ensures learned_is_sound { LearnedIsSound N A K }
    ensures justified_is_sound { JustifiedIsSound N A K }
    ensures full_is_answer_set { FullIsAnswerSet N A K }
    ensures found_are_answer_sets { FoundAreAnswerSets N A K }
    ensures none_is_missed { NoneIsMissed N A K }
    ensures shown_once { ShownOnce N A K }
    ensures shown_is_not_listed { ShownIsNotListed N A K }
    ensures learned_is_new { LearnedIsNew N A K }
    ensures justified_is_new { JustifiedIsNew N A K }
    ensures kept_once { KeptOnce N A K }
    ensures kept_is_new { KeptIsNew N A K }
    ensures chosen_have_one_highest { ChosenHaveOneHighest N A K }
    ensures one_highest_jumps { OneHighestJumps N A K }
    ensures highest_is_not_closed { HighestIsNotClosed N A K }
    ensures each_struck_is_answered { EachStruckIsAnswered N A K }
    ensures strikes_are_bounded { StrikesAreBounded N A K }
    ensures strikes_are_few { StrikesAreFew N A K }
    ensures what_must_come_may { WhatMustComeMay N A K }
    ensures found_is_new { FoundIsNew N A K }
{}

/// What the definitions refuse: a nogood that completes a head, a closed atom taken for proved, a fact taken for what no rule gives, a
/// must-be-true atom that is shown, levels that are taken away wrongly, a closed atom's literal that analysis keeps or drops without a reason, a rule left
/// out of a cover, a wide atom that isn't, and the literals chosen learned in place of a cover where no atom was called wide.
pub fn refusals<N, A, K>()
    ensures heads_stay_open { HeadsStayOpen K }
    ensures closed_is_no_proof { ClosedIsNoProof N A K }
    ensures facts_are_not_covered { FactsAreNotCovered N A K }
    ensures must_be_is_not_shown { MustBeIsNotShown N A K }
    ensures back_restores { BackRestores }
    ensures must_be_again { MustBeAgain }
    ensures closed_is_not_learned { ClosedIsNotLearned N A K }
    ensures unimplied_is_not_learned { UnimpliedIsNotLearned N A K }
    ensures no_rule_is_left_out { NoRuleIsLeftOut N A K }
    ensures wide_is_asked { WideIsAsked N A K }
    ensures decisions_follow_wide { DecisionsFollowWide N A K }
{}

/// Worked examples: the search over `a :- not b. b :- not a.`, which ends by a stuck atom with a cover, and two over `a :- not b, not c.` that close an
/// atom. One finds covers, gives the closed atom its reason and analyses, and the other calls an atom wide.
pub fn examples()
    ensures example_is_legal { ExampleIsLegal }
    ensures closing_is_legal { ClosingIsLegal }
    ensures closed_is_refused { ClosedIsRefused }
    ensures wide_is_legal { WideIsLegal }
{}
