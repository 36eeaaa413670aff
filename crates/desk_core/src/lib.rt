// The desk in code, from bytes to bytes (document 01, "Records"): input in pieces, answered line by line. The promises are equalities with
// `feed` and `finish` of the crate `desk`, through the state that is held between two pieces.
#![tactic(auto)]

pub mod feeding;
