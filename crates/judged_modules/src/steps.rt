//! The judgement of procedures, one part of their tree each.
//!
//! `specs/steps/Steps.antt` says again what a procedure is judged by: its heading, its declarations, and what completes it.
//! `proofs/steps/Laws.antt` has that this is the judgement's, `proofs/steps/Parts.antt` what the syntax of declarations is from the fields
//! of their structs, and `proofs/steps/Frame.antt` and `proofs/steps/FrameTypes.antt` what declarations leave as it was. There is no code
//! here.
