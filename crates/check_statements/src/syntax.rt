//! The syntax of statements, from the parts that code takes out of their tree.
//!
//! `proofs/syntax/Parts.antt` says of each statement, and of each list and option in it, what its syntax (`plain_stat` and its kin
//! of ob_syntax) is from the fields of its struct. There is no code here.
