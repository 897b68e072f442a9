//! Laws of the logic, of bases and of theories, as calls.
ghost use Rattle.isa_kernel.specs.Laws.{NormalFormsAreDerived, DerivedArePropositions, InstancesAreFound, JoinsAreLeast};
ghost use Rattle.isa_kernel.specs.Well.{AxiomsAreWell};

/// A well-typed term equals its normal form in the pure logic.
pub fn normal_forms_are_derived()
    ensures { NormalFormsAreDerived }
{}

/// Whatever is derived is a well-typed proposition.
pub fn derived_are_propositions()
    ensures { DerivedArePropositions }
{}

/// A type is an instance of a general one exactly where the test of `Misfit` says so.
pub fn instances_are_found()
    ensures { InstancesAreFound }
{}

/// Joined bases hold what each of the two holds, and nothing else.
pub fn joins_are_least()
    ensures { JoinsAreLeast }
{}

/// An axiom is refused exactly where its name is not new, where it does not fit the theory, or where it is no proposition.
pub fn axioms_are_well()
    ensures { AxiomsAreWell }
{}
