// What a formula says of a model: specs/ has the definitions, and proofs/ the laws that the searches rest on.
#![tactic(auto)]

mod guarded_model;
mod layout;

pub use guarded_model::GuardedModel;
pub use layout::Layout;
