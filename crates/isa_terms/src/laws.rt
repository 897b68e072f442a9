//! Laws of the term order, and of typed terms, their conversion and their normal forms.

ghost use Rattle.isa_terms.specs.Laws.{TermOrderIsTotal, TermOrderTellsApart};
ghost use Rattle.isa_terms.specs.ConversionLaws.{TypesAreGiven, NormalFormsAreNormal, NormalTermsStay, NormalisingIsIdempotent};
ghost use Rattle.isa_terms.specs.ConversionLaws.{TermsConvertToNormalForms, NormalFormsAreUnique, ApplicationIsReplacement};
ghost use Rattle.isa_terms.specs.ConversionLaws.{InstancesKeepTypes, InstancesKeepConversion, InstancesOfNormalForms, InstancesComposeByParts, InstancesCompose};

/// The term order is a total order, and terms that it does not tell apart differ in names of binders at most.
pub fn term_order_is_total()
    ensures total { TermOrderIsTotal }
    ensures tells_apart { TermOrderTellsApart }
{}

/// The type that a term's parts give it is the one that the rules of typing give it.
#[tactic(auto, using(crate::proofs::ConversionLaws::types_are_given_law))]
pub fn types_are_given()
    ensures { TypesAreGiven }
{}

/// The normal form of a well-typed term has its type and is normal.
#[tactic(auto, using(crate::proofs::ConversionLaws::normal_forms_are_normal_law))]
pub fn normal_forms_are_normal()
    ensures { NormalFormsAreNormal }
{}

/// A normal term is its own normal form.
#[tactic(auto, using(crate::proofs::ConversionLaws::normal_terms_stay_law))]
pub fn normal_terms_stay()
    ensures { NormalTermsStay }
{}

/// The normal form of a well-typed term's normal form is that form.
#[tactic(auto, using(crate::proofs::ConversionLaws::normalising_is_idempotent_law))]
pub fn normalising_is_idempotent()
    ensures { NormalisingIsIdempotent }
{}

/// A well-typed term converts to its normal form, by beta and eta.
#[tactic(auto, using(crate::proofs::ConversionLaws::terms_convert_law))]
pub fn terms_convert_to_normal_forms()
    ensures { TermsConvertToNormalForms }
{}

/// Terms of one type convert exactly where their normal forms are equal but for the names of binders.
#[tactic(auto, using(crate::proofs::ConversionLaws::normal_forms_are_unique_law))]
pub fn normal_forms_are_unique()
    ensures { NormalFormsAreUnique }
{}

/// A well-typed application of an abstraction is replacement in its body, and then normalising.
#[tactic(auto, using(crate::proofs::ConversionLaws::application_is_replacement_law))]
pub fn application_is_replacement()
    ensures { ApplicationIsReplacement }
{}

/// An instance that keeps types gives a well-typed term a well-typed one, of the type's instance.
#[tactic(auto, using(crate::proofs::ConversionLaws::instances_keep_types_law))]
pub fn instances_keep_types()
    ensures { InstancesKeepTypes }
{}

/// Convertible terms have convertible instances.
#[tactic(auto, using(crate::proofs::ConversionLaws::instances_keep_conversion_law))]
pub fn instances_keep_conversion()
    ensures { InstancesKeepConversion }
{}

/// Normalising before an instance does not change the normal form of the instance.
#[tactic(auto, using(crate::proofs::ConversionLaws::instances_of_normal_forms_law))]
pub fn instances_of_normal_forms()
    ensures { InstancesOfNormalForms }
{}

/// An instance that does on each type and unknown of a term what two instances do in turn, does so
/// on the term.
#[tactic(auto, using(crate::proofs::ConversionLaws::instances_compose_by_parts_law))]
pub fn instances_compose_by_parts()
    ensures { InstancesComposeByParts }
{}

/// One instance and then another are one instance of given terms, which keeps types where both do.
#[tactic(auto, using(crate::proofs::ConversionLaws::instances_compose_law))]
pub fn instances_compose()
    ensures { InstancesCompose }
{}
