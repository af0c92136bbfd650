ghost use Rattle.std.specs.Prelude.{◌≡◌, ◌<◌, ◌≤◌, ◌++◌, ◌∷◌, [], length};

use crate::resource::Resource;
use std::marker::Model;

/// At most 16 resources. The places behind them hold a reader-writer resource.
#[derive(Clone, Copy, Debug, PartialEq, Eq)]
pub struct Resources {
    places: [Resource; 16],
    len: usize,
}

impl Model for Resources {
    ghost use Rattle.std.specs.Prelude.{◌-◌, List, ◌++◌, length, take, replicate};
    ghost use Rattle.plan.specs.Filled.{Filled, made_again};
    ghost use Rattle.plan.specs.declared.resource.Resource.{Resource};
    ghost use Rattle.plan.specs.declared.resource.Resource.TheVariants.{ReaderWriter};

    ghost Value = { List Resource };

    ghost view = { λ v. take v.len v.places };

    ghost invariant = { λ v. Filled v.places v.len };

    ghost inverse = { λ xs. record { places = xs ++ replicate (16 - length xs) ReaderWriter; len = length xs } };

    ghost inverse_ok = { λ v h. made_again (λ ps n. record { places = ps; len = n }) v.places v.len h };
}

impl Resources {
    // No resources.
    pub(crate) fn new() -> Resources
        ensures { result ≡ [] }
    {
        Resources {
            places: [Resource::ReaderWriter; 16],
            len: 0,
        }
    }

    // How many there are.
    pub(crate) fn len(&self) -> usize
        ensures value { result ≡ length self.now }
        ensures few { result ≤ 16 }
    {
        self.as_slice().len()
    }

    // The resources.
    pub(crate) fn as_slice(&self) -> &[Resource]
        ensures value { result.now ≡ self.now }
        ensures few { length result.now ≤ 16 }
    {
        &self.places[..self.len]
    }

    // Appends a resource.
    #[tactic(auto, using(crate::proofs::Filling::filled_more, std::proofs::lemmas::List::take_more_set))]
    pub(crate) fn push(&mut self, resource: Resource)
        requires { length self.old < 16 }
        ensures { self.new ≡ self.old ++ resource ∷ [] }
    {
        self.places[self.len] = resource;
        self.len += 1;
    }
}
