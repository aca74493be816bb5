// The C interface: each function of include/tezhebul.h, over the library `tezhebul`. A crate is a library or an archive for C, and this one is the archive.
// C hands values over one by one and is answered a `bool` or a number, so each export has its parameters and its answer as the header has them.
#![tactic(auto)]

mod files;
mod rules;
