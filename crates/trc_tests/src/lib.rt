//! Tests of the top call over devices in memory: modules that are refused, what commands tell and write, images, native programs, notes
//! and objects, tables and pages, what modules mean, failing devices, and nests.
#![tactic(auto)]

#[cfg(test)]
mod broken_images;
#[cfg(test)]
mod calls;
#[cfg(test)]
mod checks;
#[cfg(test)]
mod commands;
#[cfg(test)]
mod failing_devices;
#[cfg(test)]
mod images;
#[cfg(test)]
mod meanings;
#[cfg(test)]
mod nests;
#[cfg(test)]
mod notes;
#[cfg(test)]
mod objects;
#[cfg(test)]
mod sources;
#[cfg(test)]
mod tables;
