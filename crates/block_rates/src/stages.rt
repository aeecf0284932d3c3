//! Four stages, one after the other, through which a value moves: what envelopes of operators and of pitch have in common.

ghost use Rattle.std.specs.Prelude.{ℕ, ◌≡◌, ◌+◌, Option, None};
ghost use Rattle.block_rates.specs.Stages.{Motion, released_after};
ghost use Rattle.block_rates.specs.StageOrder.{IsAt, at_stage};
ghost use Rattle.block_rates.specs.Segments.{AllFour, RunsOn};

use crate::stage::Stage;

/// One stage: where it leads, and how it moves a value there.
pub(crate) trait Segment {
    /// What is moved: a level or a pitch.
    type Value;

    /// The definition of how segments of this kind move values.
    ghost motion: { Motion Self Self.Value };

    /// What every segment of this kind is, so that no sum of `stepped` passes the ends of its type.
    ghost IsBounded: { Self → Type 0 };

    /// What every value is, for the same reason.
    ghost IsWithin: { Self.Value → Type 0 };

    /// The value one step on from `value`.
    fn stepped(self, value: Self::Value) -> Self::Value
        requires segment { IsBounded self }
        requires value { IsWithin value }
        ensures value { result ≡ motion.go self value 1 }
        ensures bound { IsWithin result };

    /// Whether a value is at the target.
    fn is_at_target(self, value: &Self::Value) -> bool
        requires segment { IsBounded self }
        requires value { IsWithin value.now }
        ensures { result ≡ motion.is_there self value.now };
}

/// Four stages, and the one that a value is in. The fourth begins when the key is released.
#[derive(Clone, Copy)]
pub(crate) struct Stages<S> {
    stage: Stage,
    first: S,
    second: S,
    third: S,
    fourth: S,
}

impl<S: Segment + Copy> Stages<S> {
    /// The stages at their begin.
    pub(crate) fn new(first: S, second: S, third: S, fourth: S) -> Stages<S>
        requires { AllFour S.IsBounded first second third fourth }
        ensures stands { (stages : ℕ → _) (start : _) →
            first ≡ stages 0 → second ≡ stages 1 → third ≡ stages 2 → fourth ≡ stages 3 →
            IsAt S.motion start stages 0 None result.stage result.first result.second result.third result.fourth start }
        ensures segments { AllFour S.IsBounded result.first result.second result.third result.fourth }
    {
        Stages {
            stage: Stage::First,
            first,
            second,
            third,
            fourth,
        }
    }

    /// The key is released: the fourth stage begins wherever the value is. A second release does nothing.
    pub(crate) fn release(&mut self)
        requires { AllFour S.IsBounded self.old.first self.old.second self.old.third self.old.fourth }
        ensures stands { RunsOn S.motion → (stages : ℕ → _) (start : _) (x : _) (k : ℕ) (off : Option ℕ) →
            IsAt S.motion start stages k off self.old.stage self.old.first self.old.second self.old.third self.old.fourth x →
            IsAt S.motion start stages k (released_after k off) self.new.stage self.new.first self.new.second self.new.third self.new.fourth x }
        ensures segments { AllFour S.IsBounded self.new.first self.new.second self.new.third self.new.fourth }
    {
        self.stage = Stage::Fourth;
    }

    /// The value one step on from `value`. Where it is at the target of its stage, the next stage begins there.
    pub(crate) fn step(&mut self, value: S::Value) -> S::Value
        requires segments { AllFour S.IsBounded self.old.first self.old.second self.old.third self.old.fourth }
        requires value { S.IsWithin value }
        ensures stands { RunsOn S.motion → (stages : ℕ → _) (start : _) (k : ℕ) (off : Option ℕ) →
            IsAt S.motion start stages k off self.old.stage self.old.first self.old.second self.old.third self.old.fourth value →
            IsAt S.motion start stages (k + 1) off self.new.stage self.new.first self.new.second self.new.third self.new.fourth result }
        ensures bound { S.IsWithin result }
        ensures segments { AllFour S.IsBounded self.new.first self.new.second self.new.third self.new.fourth }
    {
        let segment = self.segment();
        let next = segment.stepped(value);
        if segment.is_at_target(&next) {
            self.stage = self.stage.next();
        }
        next
    }

    /// The segment of the present stage.
    fn segment(&self) -> S
        ensures { result ≡ at_stage self.now.stage self.now.first self.now.second self.now.third self.now.fourth }
    {
        match self.stage {
            Stage::First => self.first,
            Stage::Second => self.second,
            Stage::Third => self.third,
            Stage::Fourth => self.fourth,
        }
    }
}
