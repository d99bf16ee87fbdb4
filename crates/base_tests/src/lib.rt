//! Tests of the crates below the compiler: texts, memory, numbers, images, devices, places in texts.
#![tactic(auto)]

#[cfg(test)]
mod bulk;
#[cfg(test)]
mod counting;
#[cfg(test)]
mod devices;
#[cfg(test)]
mod encoding;
#[cfg(test)]
mod gates;
#[cfg(test)]
mod images;
#[cfg(test)]
mod numbers;
#[cfg(test)]
mod places;
#[cfg(test)]
mod reading;
#[cfg(test)]
mod regions;
#[cfg(test)]
mod shifts;
#[cfg(test)]
mod texts;
