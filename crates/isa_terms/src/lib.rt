//! Types and terms.
#![tactic(auto)]

mod binding;
mod changes;
mod facts;
mod generalize;
mod inst;
mod instance;
mod laws;
mod lists;
mod measure;
mod name;
mod normal;
mod order;
mod pattern;
mod places;
mod replace;
mod same;
mod spine;
mod spines;
mod term;
mod terms;
mod typ;
mod typing;
mod unknowns;

pub use binding::{abstracted, closed, occurs, occurs_in};
pub use facts::is_loose;
pub use generalize::{gen_term, gen_typ, named_in_some};
pub use inst::{
    TermEntry, TypeEntry, find_term, find_type, in_some, in_term, in_typ, inst_term, inst_typ,
};
pub use instance::{Inst, instantiate};
pub use laws::{
    application_is_replacement, instances_compose, instances_compose_by_parts,
    instances_keep_conversion, instances_keep_types, instances_of_normal_forms,
    normal_forms_are_normal, normal_forms_are_unique, normal_terms_stay, normalising_is_idempotent,
    term_order_is_total, terms_convert_to_normal_forms, types_are_given,
};
pub use lists::{Names, TermEntries, Text, TypeEntries};
pub use measure::size;
pub use name::Name;
pub use normal::{abstraction, height, norm};
pub use order::{compare_terms, head};
pub use pattern::{distinct_args, is_pattern};
pub use places::{subterm_at, with_subterm_at};
pub use replace::{put_at, raised, replaced};
pub use same::{same_term, same_typ};
pub use spine::{Args, Spine, spine_of};
pub use spines::{applied_to, args_of, arity};
pub use term::{Term, TermNode};
pub use terms::{Terms, copied, has, joined, without};
pub use typ::{Typ, TypNode, Typs};
pub use typing::{IllTyped, Place, Turn, function_type, known_type, split_function, type_of};
pub use unknowns::{greatest_number, type_unknowns_of, unknowns_of};
