//! Texts have one refusal, or one image and one report of their traces, and never both.
//!
//! A limit is passed by each program that the texts are, or by none of them: such programs have one lowering, and so the same flows,
//! traces and code. Want of memory alone may come beside either.

mod laws;

pub use laws::{
    images_exclude_refusals, texts_have_one_refusal, texts_have_one_refusal_of_traces,
    texts_have_one_report, traces_exclude_refusals,
};
