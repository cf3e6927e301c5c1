// The listing of a woven script: from the bytes of an input to the bytes of the text.
#![tactic(auto)]

pub mod listing;
mod text;
