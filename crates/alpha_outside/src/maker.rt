ghost use Rattle.std.specs.Prelude.{◌≡◌, IfOk, fold};
ghost use Rattle.alpha_outside.specs.Steps.{step_key};
ghost use Rattle.alpha_outside.specs.Makers.{step_eq, maker_eq, step_writes, maker_writes, key_writes, side_writes, member_writes};
ghost use Rattle.alpha_outside.specs.MakerLaws.{step_same, step_equivalence, maker_same, maker_equivalence};
ghost use Rattle.std.specs.Cmp.{partial_equiv_from_equiv};
ghost use Rattle.std.proofs.Common.{ap};

use crate::ids::TermId;
use crate::{List, OutOfMemory};
use std::alloc::Global;
use std::hash::{Hash, Hasher};

/// A step of the sum of an aggregate. `agg` is the number of the aggregate, `plus` the side (the positive weights, or the
/// negative ones), `k` the number of a member on that side, and `key` the values of the aggregate's global variables.
#[derive(Debug, Drop)]
pub enum Step {
    /// The sum before any member is 0.
    Zero {
        agg: u32,
        plus: bool,
        key: List<TermId>,
    },
    /// The sum up to member `k` is the sum before it: the member is not in the set.
    Skip {
        agg: u32,
        plus: bool,
        k: u32,
        sum: i64,
        key: List<TermId>,
    },
    /// The weight of member `k` is added to the sum before it.
    Add {
        agg: u32,
        plus: bool,
        k: u32,
        sum: i64,
        key: List<TermId>,
    },
    /// The sum is reached by some number of members.
    Reach {
        agg: u32,
        plus: bool,
        k: u32,
        sum: i64,
        key: List<TermId>,
    },
    /// A sum farther from 0 than `low` is reached.
    Above {
        agg: u32,
        plus: bool,
        low: i64,
        high: i64,
        key: List<TermId>,
    },
    /// The total is that of the sums reached on both sides with none above them.
    Total {
        agg: u32,
        up: i64,
        down: i64,
        key: List<TermId>,
    },
}

/// What makes an instance: a core rule with the values of its variables in order, or a step of an aggregate.
#[derive(Debug, Drop)]
pub enum Maker {
    Rule { rule: u32, binding: List<TermId> },
    Step(Step),
}

impl Step {
    /// Another copy.
    pub fn copy(&self, alloc: Global) -> Result<Step, OutOfMemory>
        ensures { IfOk result (λ s. s ≡ self.now) }
    {
        let key = List::from_slice(alloc, self.key().as_slice())?;
        Ok(match *self {
            Step::Zero { agg, plus, .. } => Step::Zero { agg, plus, key },
            Step::Skip {
                agg,
                plus,
                k,
                sum,
                ..
            } => Step::Skip {
                agg,
                plus,
                k,
                sum,
                key,
            },
            Step::Add {
                agg,
                plus,
                k,
                sum,
                ..
            } => Step::Add {
                agg,
                plus,
                k,
                sum,
                key,
            },
            Step::Reach {
                agg,
                plus,
                k,
                sum,
                ..
            } => Step::Reach {
                agg,
                plus,
                k,
                sum,
                key,
            },
            Step::Above {
                agg,
                plus,
                low,
                high,
                ..
            } => Step::Above {
                agg,
                plus,
                low,
                high,
                key,
            },
            Step::Total { agg, up, down, .. } => Step::Total { agg, up, down, key },
        })
    }

    // The values of the aggregate's global variables.
    fn key(&self) -> &List<TermId>
        ensures { result.now ≡ step_key self.now }
    {
        match self {
            Step::Zero { key, .. } => key,
            Step::Skip { key, .. } => key,
            Step::Add { key, .. } => key,
            Step::Reach { key, .. } => key,
            Step::Above { key, .. } => key,
            Step::Total { key, .. } => key,
        }
    }
}

impl Maker {
    /// Another copy.
    pub fn copy(&self, alloc: Global) -> Result<Maker, OutOfMemory>
        ensures { IfOk result (λ m. m ≡ self.now) }
    {
        match self {
            Maker::Rule { rule, binding } => Ok(Maker::Rule {
                rule: *rule,
                binding: List::from_slice(alloc, binding.as_slice())?,
            }),
            Maker::Step(step) => Ok(Maker::Step(step.copy(alloc)?)),
        }
    }
}

impl PartialEq for Step {
    ghost eq = { step_eq };

    ghost laws = { partial_equiv_from_equiv step_equivalence };

    fn eq(&self, other: &Step) -> bool {
        match self {
            Step::Zero { agg, plus, key } => match other {
                Step::Zero {
                    agg: a,
                    plus: p,
                    key: xs,
                } => *agg == *a && *plus == *p && key.as_slice() == xs.as_slice(),
                _ => false,
            },
            Step::Skip {
                agg,
                plus,
                k,
                sum,
                key,
            } => match other {
                Step::Skip {
                    agg: a,
                    plus: p,
                    k: n,
                    sum: s,
                    key: xs,
                } => {
                    *k == *n
                        && *sum == *s
                        && (*agg == *a && *plus == *p && key.as_slice() == xs.as_slice())
                }
                _ => false,
            },
            Step::Add {
                agg,
                plus,
                k,
                sum,
                key,
            } => match other {
                Step::Add {
                    agg: a,
                    plus: p,
                    k: n,
                    sum: s,
                    key: xs,
                } => {
                    *k == *n
                        && *sum == *s
                        && (*agg == *a && *plus == *p && key.as_slice() == xs.as_slice())
                }
                _ => false,
            },
            Step::Reach {
                agg,
                plus,
                k,
                sum,
                key,
            } => match other {
                Step::Reach {
                    agg: a,
                    plus: p,
                    k: n,
                    sum: s,
                    key: xs,
                } => {
                    *k == *n
                        && *sum == *s
                        && (*agg == *a && *plus == *p && key.as_slice() == xs.as_slice())
                }
                _ => false,
            },
            Step::Above {
                agg,
                plus,
                low,
                high,
                key,
            } => match other {
                Step::Above {
                    agg: a,
                    plus: p,
                    low: l,
                    high: h,
                    key: xs,
                } => {
                    *low == *l
                        && *high == *h
                        && (*agg == *a && *plus == *p && key.as_slice() == xs.as_slice())
                }
                _ => false,
            },
            Step::Total { agg, up, down, key } => match other {
                Step::Total {
                    agg: a,
                    up: u,
                    down: d,
                    key: xs,
                } => *up == *u && *down == *d && *agg == *a && key.as_slice() == xs.as_slice(),
                _ => false,
            },
        }
    }
}

impl Eq for Step {
    ghost laws = { step_equivalence };
}

impl Hash for Step {
    ghost hash_input = { step_writes };

    ghost respects_eq = { λ x y e. ap step_writes (step_same x y e) };

    fn hash<H: Hasher>(&self, state: &mut H) {
        match self {
            Step::Zero { agg, plus, key } => hash_side(0, *agg, *plus, key.as_slice(), state),
            Step::Skip {
                agg,
                plus,
                k,
                sum,
                key,
            } => hash_member(1, *agg, *plus, *k, *sum, key.as_slice(), state),
            Step::Add {
                agg,
                plus,
                k,
                sum,
                key,
            } => hash_member(2, *agg, *plus, *k, *sum, key.as_slice(), state),
            Step::Reach {
                agg,
                plus,
                k,
                sum,
                key,
            } => hash_member(3, *agg, *plus, *k, *sum, key.as_slice(), state),
            Step::Above {
                agg,
                plus,
                low,
                high,
                key,
            } => {
                hash_side(4, *agg, *plus, key.as_slice(), state);
                low.hash(state);
                high.hash(state);
            }
            Step::Total { agg, up, down, key } => {
                hash_key(5, *agg, key.as_slice(), state);
                up.hash(state);
                down.hash(state);
            }
        }
    }
}

fn hash_key<H: Hasher>(kind: u8, agg: u32, key: &[TermId], state: &mut H)
    ensures { state.new ≡ fold H.write state.old (key_writes kind agg key.now) }
{
    state.write_u8(kind);
    agg.hash(state);
    key.hash(state);
}

fn hash_side<H: Hasher>(kind: u8, agg: u32, plus: bool, key: &[TermId], state: &mut H)
    ensures { state.new ≡ fold H.write state.old (side_writes kind agg plus key.now) }
{
    hash_key(kind, agg, key, state);
    plus.hash(state);
}

fn hash_member<H: Hasher>(
    kind: u8,
    agg: u32,
    plus: bool,
    k: u32,
    sum: i64,
    key: &[TermId],
    state: &mut H,
)
    ensures { state.new ≡ fold H.write state.old (member_writes kind agg plus k sum key.now) }
{
    hash_side(kind, agg, plus, key, state);
    k.hash(state);
    sum.hash(state);
}

impl PartialEq for Maker {
    ghost eq = { maker_eq };

    ghost laws = { partial_equiv_from_equiv maker_equivalence };

    fn eq(&self, other: &Maker) -> bool {
        match self {
            Maker::Rule { rule, binding } => match other {
                Maker::Rule {
                    rule: r,
                    binding: xs,
                } => *rule == *r && binding.as_slice() == xs.as_slice(),
                _ => false,
            },
            Maker::Step(step) => match other {
                Maker::Step(s) => *step == *s,
                _ => false,
            },
        }
    }
}

impl Eq for Maker {
    ghost laws = { maker_equivalence };
}

impl Hash for Maker {
    ghost hash_input = { maker_writes };

    ghost respects_eq = { λ x y e. ap maker_writes (maker_same x y e) };

    fn hash<H: Hasher>(&self, state: &mut H) {
        match self {
            Maker::Rule { rule, binding } => {
                state.write_u8(0);
                rule.hash(state);
                binding.as_slice().hash(state);
            }
            Maker::Step(step) => {
                state.write_u8(1);
                step.hash(state);
            }
        }
    }
}
