//! Litmus tests as plain data: the calls of a setup and of a body, the predicate that is asked, and the test that
//! holds them. Contracts see a text as a list of bytes, a path as the list of its components, and a test as one
//! record, so that two tests are equal exactly where they are written alike, lines included. A test holds its own
//! rules: the forms of all that it names, and how much of each there may be. `print` is its canonical text, and
//! `insert` puts syncs into its body. It stands on the list type, on the forms of tokens, and on boxes that contracts
//! see as what they hold.
#![tactic(auto)]

mod call;
mod copying;
mod laws;
mod limits;
mod litmus;
mod pred;
mod printing;
mod site;

pub use call::{Call, Path, Step, Text};
pub use copying::{copy_call, copy_path, copy_pred, copy_text};
pub use laws::{inserted_within_limits, same_text};
pub use limits::{
    MOST_BLOCK, MOST_BODY_CALLS, MOST_FILE_BYTES, MOST_PARENTHESES, MOST_SETUP_CALLS,
    MOST_TEXT_BYTES, MOST_WORDS, USUAL_BLOCK,
};
pub use litmus::Litmus;
pub use pred::{Binding, Pred};
pub use printing::{print, push_number, push_path};
pub use site::{Site, SiteKind, body_with_sites, insert};
