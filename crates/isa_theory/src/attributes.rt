//! What attributes do to a context.
ghost use Rattle.isa_theory.specs.Applying.{with_attribute_on, with_attributes, with_declared};
ghost use Rattle.isa_theory.specs.Private.Growing.{Grows, Becomes};

use crate::context::Context;
use isa_kernel::Thm;
use isa_outer::{Attribute, Attributes, Kind};
use isa_terms::Name;
use std::alloc::Global;

impl Context {
    /// An attribute acts on each of the theorems.
    #[tactic(auto, unfolding(crate::specs::Applying::with_attribute_on))]
    fn act_on_each(&mut self, alloc: Global, attribute: Attribute, thms: &[Thm]) -> Result<(), Kind>
        ensures becomes { Becomes result self.new (with_attribute_on self.old thms.now attribute) }
        ensures grows { Grows self.old self.new }
    {
        for thm in thms {
            self.declare_theorem(alloc, attribute, thm)?;
        }
        Ok(())
    }

    /// Attributes act on theorems, one after the other.
    #[tactic(auto, unfolding(crate::specs::Applying::with_attributes))]
    pub(crate) fn act(
        &mut self,
        alloc: Global,
        attributes: &[Attribute],
        thms: &[Thm],
    ) -> Result<(), Kind>
        ensures becomes { Becomes result self.new (with_attributes self.old attributes.now thms.now) }
        ensures grows { Grows self.old self.new }
    {
        let Some((first, rest)) = attributes.split_first() else {
            return Ok(());
        };
        self.act_on_each(alloc, *first, thms)?;
        self.act(alloc, rest, thms)
    }

    /// The attributes of a fact act, which must be there.
    #[tactic(auto, unfolding(crate::specs::Applying::with_declared))]
    pub(crate) fn declare_fact(
        &mut self,
        alloc: Global,
        name: &Name,
        attributes: &Attributes,
    ) -> Result<(), Kind>
        ensures becomes { Becomes result self.new (with_declared self.old name.now attributes.now) }
        ensures grows { Grows self.old self.new }
    {
        let thms = self.known_fact(name)?.copy(alloc)?;
        self.act(alloc, attributes.as_slice(), thms.as_slice())
    }
}
