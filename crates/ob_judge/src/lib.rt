//! The checker's judgement, as definitions: which modules are legal, what they become, and else the first rule that is
//! broken, with its number and the place of its byte.
//!
//! It is a function of a module's syntax, its symbols and its bytes (`checked`, in specs/Modules.antt). The order of the
//! text is the order in which parts are put together (specs/Judged.antt): a construct is judged after its parts. The
//! checker's calls are proved against it, and ob_judge_rows holds it against an independent program.
#![tactic(auto)]
