//! Results of allocators in the form.

mod reading;
mod writing;
