// The library for tools in other languages, whose C interface is the crate `tezhebul_c`: a slot file's check, answer and listing, and the rules of each kind of source. Its
// functions have the parameters and the answers of that interface, and so have those of this crate that they call.
#![tactic(auto)]

mod fields;
pub mod files;
pub mod rules;
