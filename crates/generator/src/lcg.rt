//! The numbers that scripts are generated from.

ghost use Rattle.std.specs.Prelude.{◌≡◌, ◌+◌, ◌*◌, ◌%◌, ◌^◌, ◌<◌};

/// A linear congruential generator of 64 bits.
#[derive(Clone, Copy)]
pub(crate) struct Lcg {
    pub(crate) state: u64,
}

impl Lcg {
    ghost use Rattle.generator.specs.Lcg.{below, next};
    ghost use Rattle.generator.specs.Generated.{script_seed};

    /// The generator of a script, by the seed of all and the script's number.
    #[tactic(auto, unfolding(crate::specs::Generated::script_seed))]
    pub(crate) fn of_script(seed: u64, script: u32) -> Lcg
        ensures { result.state ≡ script_seed seed script }
    {
        Lcg {
            state: seed.wrapping_add(1_000_003 * u64::from(script)),
        }
    }

    /// The next number below another.
    #[tactic(auto, unfolding(crate::specs::Lcg::below, crate::specs::Lcg::next))]
    pub(crate) fn next_below(&mut self, bound: u8) -> u8
        requires { 0 < bound }
        ensures state { self.new.state ≡ next self.old.state }
        ensures value { result ≡ below bound self.new.state }
        ensures range { result < bound }
    {
        self.state = self
            .state
            .wrapping_mul(6_364_136_223_846_793_005)
            .wrapping_add(1_442_695_040_888_963_407);
        ((self.state >> 33) % u64::from(bound)) as u8
    }
}
