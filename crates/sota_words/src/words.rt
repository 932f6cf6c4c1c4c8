// Numbers from the words of a seed.
ghost use Rattle.std.specs.Prelude.{◌≡◌, ◌-◌, ◌<◌, ◌≤◌};
ghost use Rattle.sota_words.specs.Drawn.{words_of, drawn};

use rand_core::utils::NextWord;
use rand_pcg::Lcg128Xsl64;
use sota_units::Scale;
use std::marker::Model;

/// The words of a seed, from the next one on, as PCG's generator of 128 bits gives them (O'Neill,
/// XSL RR 128/64). They serve simulations and no secrets.
#[derive(Drop)]
pub struct Words {
    generator: Lcg128Xsl64,
}

impl Model for Words {
    ghost use Rattle.rand_pcg.specs.Lcg.{Lcg};

    ghost Value = { Lcg };

    ghost view = { λ a. a.generator };
}

impl Words {
    /// The words of a seed, from the first one on. It takes no memory.
    #[tactic(auto, unfolding(crate::specs::Drawn::words_of))]
    pub fn new(seed: u64) -> Words
        ensures { result ≡ words_of seed }
    {
        Words {
            generator: Lcg128Xsl64::new(u128::from(seed), 0),
        }
    }

    /// A number below the scale, by one word.
    pub fn draw(&mut self, scale: Scale) -> u32
        ensures value { (result, self.new) ≡ drawn scale self.old }
        ensures below { result < scale }
    {
        self.draw_below(scale.get())
    }

    /// A number below the bound, by one word: the word as a fraction of 2^64, times the bound,
    /// rounded down. It is 0 where the bound is 0.
    #[tactic(auto, unfolding(crate::specs::Drawn::drawn))]
    pub fn draw_below(&mut self, bound: u32) -> u32
        ensures value { (result, self.new) ≡ drawn bound self.old }
        ensures below { result ≤ bound - 1 }
    {
        let word = self.generator.next_word();
        ((u128::from(word) * u128::from(bound)) >> 64) as u32
    }
}
