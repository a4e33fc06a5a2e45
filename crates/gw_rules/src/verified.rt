//! An object that was accepted.

ghost use Rattle.std.specs.Prelude.{◌≡◌, length};
ghost use Rattle.gw_rules.specs.Weights.{WeightsPass};
ghost use Rattle.gw_rules.specs.Accepted.{Checked, Accepted, heaviest as heaviest_of};

use gw_object::Object;
use std::marker::Model;

/// An object that every check holds of.
#[derive(Drop)]
pub struct Verified {
    object: Object,
}

impl Model for Verified {
    ghost use Rattle.gw_object.specs.declared.parts.Parts.{Parts};
    ghost use Rattle.gw_rules.specs.Accepted.{Accepted};

    ghost Value = { Parts };

    ghost view = { λ v. v.object };

    ghost invariant = { λ v. Accepted v.object };
}

impl Verified {
    /// An object of which no check is broken, as the verifier finds it.
    pub fn new(object: Object) -> Verified
        requires { Accepted object }
        ensures { result ≡ object }
    {
        Verified { object }
    }

    /// The object, as it was handed in.
    #[tactic(auto, using(crate::proofs::AllPass::is_checked, crate::proofs::AllPass::weights_pass))]
    pub fn object(&self) -> &Object
        ensures value { result.now ≡ self.now }
        ensures checked { Checked self.now }
        ensures weights { WeightsPass self.now }
    {
        &self.object
    }

    /// The object, given back.
    #[tactic(auto, using(crate::proofs::AllPass::is_checked, crate::proofs::AllPass::weights_pass))]
    pub fn into_object(self) -> Object
        ensures value { result ≡ self }
        ensures checked { Checked self }
        ensures weights { WeightsPass self }
    {
        let Verified { object } = self;
        object
    }

    /// How many blocks there are.
    pub fn blocks(&self) -> u16
        ensures { result ≡ length self.now.blocks }
    {
        self.object.parts().blocks.as_slice().len() as u16
    }

    /// How many procedures there are.
    pub fn procedures(&self) -> u16
        ensures { result ≡ length self.now.procedures }
    {
        self.object.parts().procedures.as_slice().len() as u16
    }

    /// The greatest weight of a block, or 0 where there is no block.
    pub fn heaviest(&self) -> u32
        ensures { result ≡ heaviest_of self.now.weights }
    {
        let mut heaviest = 0;
        for weight in self.object.parts().weights.as_slice() {
            heaviest = heaviest.max(*weight);
        }
        heaviest
    }
}
