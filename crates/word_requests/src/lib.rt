//! What the matches of each command ask for, or that a value of theirs is refused.
//!
//! `specs/Asked.antt` says what is asked for by the values that an argument or an option has, `specs/Requests.antt` how a request shows
//! that, and `specs/Fitting.antt` what holds of every request.
#![tactic(auto)]

mod asking;
mod request;

pub use asking::{
    audit_request, batch_request, both_request, build_request, bulk_request, check_request,
    compare_request, elf_request, exec_request, explain_request, link_request, mean_request,
    object_request, run_request, show_request, traces_request,
};
pub use request::Request;
