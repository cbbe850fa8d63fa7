//! Pairs of declared effects.

/// An effect that a task declares.
#[derive(Clone, Copy, Debug, PartialEq, Eq, PartialOrd, Ord)]
pub struct DeclaredEffect {
    /// The number of the task's declaration, counted from 0.
    pub decl: u32,
    /// The number of the effect in that declaration, counted from 0.
    pub effect: usize,
}

/// An effect for which tasks held others, and the effect for which those were held. Pairs are ordered by their numbers.
#[derive(Clone, Copy, Debug, PartialEq, Eq, PartialOrd, Ord)]
pub struct EffectPair {
    /// The effect of the tasks that held others.
    pub holder: DeclaredEffect,
    /// The effect of the tasks that were held.
    pub held: DeclaredEffect,
}

/// How often and how long a pair held tasks.
#[derive(Clone, Copy, Debug, PartialEq, Eq)]
pub struct HeldPair {
    /// The pair.
    pub pair: EffectPair,
    /// How many admissions were held.
    pub admissions: u64,
    /// How long they were held in total.
    pub time: u128,
}
